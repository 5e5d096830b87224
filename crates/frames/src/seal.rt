//! Frames sealed and opened.

ghost use Rattle.std.specs.Prelude.{◌≡◌, ◌≤◌, ◌+◌, vec_len, vec_capacity, IfSome};
ghost use Rattle.frames.specs.Frames.{sealed, IsSealed};

use crate::TAG;
use crate::head::{Head, head_of};
use crate::hmac::Key;
use big_endian::put;

// Puts the tag of a body behind it.
pub(crate) fn seal(key: &Key, body: &mut Vec<u8>)
    requires { vec_len body.old + 16 ≤ vec_capacity body.old }
    ensures { body.new.items ≡ sealed key.now body.old.items }
{
    let tag = key.tag(body.as_slice());
    put(&tag[..TAG], body);
}

// The head of a frame whose tag is right, and its content.
pub(crate) fn open<'a>(key: &Key, frame: &'a [u8]) -> Option<(Head, &'a [u8])>
    ensures { IfSome result (λ x. IsSealed key.now frame.now x.0 x.1.now) }
{
    if frame.len() < TAG {
        return None;
    }
    let (body, tag) = frame.split_at(frame.len() - TAG);
    if !key.verifies(body, tag) {
        return None;
    }
    let head = head_of(body)?;
    Some((head, &body[28..]))
}
