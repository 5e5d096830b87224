//! HMAC-SHA-256 (RFC 2104, FIPS 198-1): a tag of a message, which only whoever has the key can make.

ghost use Rattle.std.specs.Prelude.{◌≡◌, ◌↔◌, ◌≤◌, ◌++◌, ℕ, List, IsTrue, length, take, drop};
ghost use Rattle.sha2.specs.Sha256.{sha256};
ghost use Rattle.sha2.specs.Hashers.{Holds256};
ghost use Rattle.frames.specs.Hmac.{block_key, xor_all, hmac_sha256};

use sha2::{Digest, Sha256};
use std::marker::Model;

/// The bytes of a block of SHA-256.
pub const BLOCK: usize = 64;

/// The bytes of a tag.
pub const TAG: usize = 32;

// What each byte of the key is combined with, inside and outside.
const INNER: u8 = 0x36;

const OUTER: u8 = 0x5c;

/// A key, with what is computed of it once: the two hashers that hold its pads. Contracts see the key's bytes, filled up with zeros to a block.
#[derive(Drop)]
pub struct Key {
    block: [u8; BLOCK],
    inner: Sha256,
    outer: Sha256,
}

impl Model for Key {
    ghost use Rattle.std.specs.Prelude.{List, ℕ};
    ghost use Rattle.sha2.specs.Hashers.{Holds256};
    ghost use Rattle.frames.specs.Hmac.{inner_pad, outer_pad};

    ghost Value = { List ℕ };

    ghost view = { λ k. k.block };

    ghost invariant = { λ k. Holds256 k.inner (inner_pad k.block) × Holds256 k.outer (outer_pad k.block) };
}

// Puts a text at the front of a block.
fn put_front(text: &[u8], block: &mut [u8])
    requires { length text.now ≤ length block.old }
    ensures { block.new ≡ text.now ++ drop (length text.now) block.old }
{
    block[..text.len()].copy_from_slice(text);
}

// A key as one block: its digest where it is longer, filled up with zeros.
fn block_of(key: &[u8]) -> [u8; BLOCK]
    ensures { result ≡ block_key key.now }
{
    let mut block = [0; BLOCK];
    if key.len() <= BLOCK {
        put_front(key, &mut block);
    } else {
        put_front(&Sha256::digest(key), &mut block);
    }
    block
}

// A block with each byte combined with one.
fn xor_all(block: &[u8; BLOCK], byte: u8) -> [u8; BLOCK]
    ensures { result ≡ xor_all byte block.now }
{
    let mut pad = *block;
    for place in pad.iter_mut() {
        *place ^= byte;
    }
    pad
}

// The digest of what a hasher holds with a message behind it.
fn digest_behind(hasher: &Sha256, message: &[u8]) -> [u8; TAG]
    ensures { (m : List ℕ) → Holds256 hasher.now m → result ≡ sha256 (m ++ message.now) }
{
    let Ok(mut hasher) = hasher.clone() else {
        unreachable!();
    };
    hasher.update(message);
    hasher.finalize()
}

impl Key {
    /// A key of some bytes.
    pub fn new(key: &[u8]) -> Key
        ensures { result ≡ block_key key.now }
    {
        let block = block_of(key);
        Key {
            inner: Sha256::new_with_prefix(xor_all(&block, INNER)),
            outer: Sha256::new_with_prefix(xor_all(&block, OUTER)),
            block,
        }
    }

    /// The tag of a message.
    pub fn tag(&self, message: &[u8]) -> [u8; TAG]
        ensures { result ≡ hmac_sha256 self.now message.now }
    {
        let inner = digest_behind(&self.inner, message);
        digest_behind(&self.outer, &inner)
    }

    /// Whether some bytes are the first ones of a message's tag. It takes as long wherever they differ.
    pub fn verifies(&self, message: &[u8], front: &[u8]) -> bool
        requires { length front.now ≤ 32 }
        ensures { IsTrue result ↔ (take (length front.now) (hmac_sha256 self.now message.now) ≡ front.now) }
    {
        let tag = self.tag(message);
        is_same(&tag[..front.len()], front)
    }
}

// Whether two texts of one length are the same; it looks at all their bytes.
fn is_same(one: &[u8], other: &[u8]) -> bool
    requires { length one.now ≡ length other.now }
    ensures { IsTrue result ↔ (one.now ≡ other.now) }
{
    let mut differing = 0usize;
    for i in 0..one.len() {
        differing += usize::from(one[i] != other[i]);
    }
    differing == 0
}
