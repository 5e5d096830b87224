//! Cases of states in chunks: 2.1 has promised 2@1.1, and is handed the chunks of a state and the INSTALL that gives it.

use crate::channels::cases::Cases;
use crate::channels::hexadecimal::unhex;
use crate::channels::stands::{Chat, Stand, channel_at, drain, two_at};
use crate::lines::Told;
use std::alloc::{AllocError, Global};

// INSTALL of 2@1.1 to 2.1, with a state of 4,161 bytes, and of 32,769 bytes, in chunks.
const INSTALL: &[u8] = b"5653030c 05 776f726c64 000100000001 000200000001
    0000000000000002 000100000001 02 000100000001 000200000001 01 000200000001
    0000000000000000 00 02 00001041";

const INSTALL_OF_TWO: &[u8] = b"5653030c 05 776f726c64 000100000001 000200000001
    0000000000000002 000100000001 02 000100000001 000200000001 01 000200000001
    0000000000000000 00 02 00008001";

// What stands before the bytes of a chunk: the one chunk of 4,161 bytes, and the two chunks of 32,769 bytes.
const ONLY: &[u8] = b"5653030e 05 776f726c64 000100000001 000200000001
    0000000000000002 000100000001 00001041 01";

const FIRST: &[u8] = b"5653030e 05 776f726c64 000100000001 000200000001
    0000000000000002 000100000001 00008001 01";

const SECOND: &[u8] = b"5653030e 05 776f726c64 000100000001 000200000001
    0000000000000002 000100000001 00008001 02";

// The same of a view that is not promised, and from 3.1, which did not propose.
const ONLY_OF_ANOTHER: &[u8] = b"5653030e 05 776f726c64 000100000001 000200000001
    0000000000000003 000100000001 00001041 01";

const ONLY_FROM_THIRD: &[u8] = b"5653030e 05 776f726c64 000300000001 000200000001
    0000000000000002 000100000001 00001041 01";

// A line of a chat that 1.1 said, before the 512 bytes of its payload.
const LINE: &[u8] = b"\x00\x01\x00\x00\x00\x01\x02\x00";

// The state of a chat of eight such lines: 1 + 8 * (8 + 512) = 4,161 bytes.
fn eight_lines(alloc: Global) -> Result<Vec<u8>, AllocError> {
    let mut state = Told::new(alloc);
    state.bytes(&[8]);
    for _ in 0..8u8 {
        state.bytes(LINE);
        state.bytes(&[b'a'; 512]);
    }
    state.into_text()
}

// A STATE: what stands before the bytes, and the bytes.
fn chunk(alloc: Global, front: &[u8], bytes: &[u8]) -> Result<Vec<u8>, AllocError> {
    let mut packet = unhex(alloc, front)?;
    packet.extend_from_slice(bytes)?;
    Ok(packet)
}

impl Cases {
    // Hands a chunk to a channel: what stands before its bytes, and the bytes.
    fn hand_chunk(&mut self, channel: &mut Chat, asked: &str, front: &[u8], bytes: &[u8]) {
        match chunk(self.alloc, front, bytes) {
            Ok(packet) => self.hand_bytes(channel, asked, packet.as_slice()),
            Err(_) => self.told.refuse(),
        }
    }

    // Chunks that are for nobody here, and the INSTALL that comes before its chunk.
    fn ignore_chunks(&mut self, state: &[u8]) {
        let Ok((mut channel, mut fresh)) = two_at(self.alloc, Stand::Joining) else {
            return self.told.refuse();
        };
        let asked = "STATE of another proposal, from node";
        self.hand_chunk(&mut channel, asked, ONLY_OF_ANOTHER, state);
        let asked = "STATE from one that did not propose, from node";
        self.hand_chunk(&mut channel, asked, ONLY_FROM_THIRD, state);
        let asked = "INSTALL before its chunk, from node";
        self.hand(&mut channel, asked, INSTALL);
        self.compare(&mut channel, &mut fresh);
    }

    // The INSTALL by which it enters with the state.
    fn enter(&mut self, channel: &mut Chat) {
        let Ok(install) = unhex(self.alloc, INSTALL) else {
            return self.told.refuse();
        };
        let is_entry = channel.incoming(install.as_slice()).is_ok();
        drain(channel);
        self.told.truth("INSTALL is taken", is_entry);
        let lines = match channel.receiver() {
            Some(chat) => chat.len() as u64,
            None => 0,
        };
        self.told.number("lines of the chat", lines);
    }

    // The chunk, with others behind it that are ignored, and the INSTALL.
    fn take_chunk(&mut self, state: &[u8], sevens: &[u8]) {
        let Ok(mut channel) = channel_at(self.alloc, Stand::Joining) else {
            return self.told.refuse();
        };
        self.hand_chunk(&mut channel, "STATE, from node", ONLY, state);
        let asked = "STATE of a longer one, from node";
        self.hand_chunk(&mut channel, asked, SECOND, &[7]);
        let (other, _) = sevens.split_at(state.len().min(sevens.len()));
        let asked = "STATE of other bytes, from node";
        self.hand_chunk(&mut channel, asked, ONLY, other);
        self.enter(&mut channel);
    }

    // Two chunks, the second first, of a state that no chat has.
    fn end_by_chunks(&mut self, sevens: &[u8]) {
        let Ok(mut channel) = channel_at(self.alloc, Stand::Joining) else {
            return self.told.refuse();
        };
        let asked = "STATE, the second, from node";
        self.hand_chunk(&mut channel, asked, SECOND, &[7]);
        let asked = "INSTALL with one of two, from node";
        self.hand(&mut channel, asked, INSTALL_OF_TWO);
        let asked = "STATE, the first, from node";
        self.hand_chunk(&mut channel, asked, FIRST, sevens);
        let asked = "INSTALL with both, from node";
        self.hand(&mut channel, asked, INSTALL_OF_TWO);
        self.told.truth("has ended", channel.receiver().is_none());
    }

    /// What a channel that has promised a view does with chunks.
    pub fn chunks(&mut self) {
        self.told.story("a state in chunks");
        let sevens = vec![in self.alloc; 7u8; 32_768];
        let (Ok(state), Ok(sevens)) = (eight_lines(self.alloc), sevens) else {
            return self.told.refuse();
        };
        self.ignore_chunks(state.as_slice());
        self.take_chunk(state.as_slice(), sevens.as_slice());
        self.end_by_chunks(sevens.as_slice());
    }
}
