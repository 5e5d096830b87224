use address::limits::{CHUNK, STATE, WHOLE_STATE};
use membership::{HeldChunks, chunk_count, chunk_of};
use std::alloc::{AllocError, Global};
use wire_values::{Chunk, GivenState, Total};

/// A state of so many bytes, which count from 0 to 250 again and again: the byte behind the first 32,768 = 130 * 251 + 138 is 138.
fn state_of(alloc: Global, length: u32) -> Result<Vec<u8>, AllocError> {
    let mut state = Vec::new(alloc);
    for at in 0..length {
        state.push((at % 251) as u8)?;
    }
    Ok(state)
}

/// The chunk with an index of a state; `None` where it has none.
fn cut(state: &[u8], index: u8) -> Option<Chunk<'_>> {
    if state.len() <= WHOLE_STATE || state.len() > STATE || index == 0 {
        return None;
    }
    if CHUNK * (index as usize - 1) >= state.len() {
        return None;
    }
    Some(chunk_of(state, index))
}

/// Whether what an INSTALL says of a state gives these bytes.
fn gives(held: &HeldChunks, alloc: Global, state: &GivenState<'_>, bytes: &[u8]) -> bool {
    match held.given(alloc, state) {
        Ok(Some(given)) => given.as_slice() == bytes,
        _ => false,
    }
}

#[test]
fn chunks_in_any_order_make_the_state(rt: HostRuntime) {
    let alloc = rt.alloc();
    assert_eq!(rt; chunk_count(32_769), 2, "how many chunks it has");
    let state = state_of(alloc, 32_769).ok().expect(&rt, "a state");
    let one = cut(&state, 1).expect(&rt, "the first chunk");
    assert_eq!(rt; one.as_slice().len(), 32_768, "the first is full");
    let two = cut(&state, 2).expect(&rt, "the second chunk");
    assert_eq!(rt; two.total().get(), 32_769, "the total");
    assert_eq!(rt; two.index(), 2, "the index of the second");
    assert!(rt; two.as_slice() == [138].as_slice(), "what is left");
    let total = Total::new(32_769).expect(&rt, "a total");
    let given = GivenState::Chunked(total);
    let mut held = HeldChunks::new(alloc);
    held.kept();
    assert!(rt; held.hold(&two).is_ok(), "the second is held");
    assert!(rt; !held.is_new(&two), "it is not new");
    assert!(rt; !held.is_there(&given), "the first is missing");
    assert!(rt; held.hold(&one).is_ok(), "the first is held");
    assert!(rt; held.is_there(&given), "both are held");
    assert!(rt; gives(&held, alloc, &given, &state), "the state");
    held.clear();
    assert!(rt; !held.is_there(&given), "nothing is held");
}
