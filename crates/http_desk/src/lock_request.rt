//! What a request asks of the table of locks.

use crate::query::{Takes, read_query};
use crate::refusal::Refusal;
use crate::request::{Asked, Errand, Order, misread, read_only};
use bytes::Bytes;
use http::Request;
use std::alloc::{AllocError, Global};
use vsync_text::{Part, Text};

/// The line of a word and a lock's name.
pub(crate) fn line_of<'a>(
    alloc: Global,
    word: &'a [u8],
    name: &'a [u8],
) -> Result<Vec<u8>, AllocError> {
    let mut line = Text::new(alloc);
    line.put_parts(&[Part::Text(word), Part::Text(b" "), Part::Text(name)]);
    line.whole()
}

// A request for a lock.
fn acquire(alloc: Global, request: &Request<Bytes>, name: &[u8]) -> Result<Asked, AllocError> {
    match read_query(request.uri().query(), Takes::Acquire) {
        Ok(found) => Ok(Asked::Write(Order {
            line: line_of(alloc, b"acquire", name)?,
            errand: Errand::Acquire {
                name: Vec::from_slice(alloc, name)?,
                wait: found.wait,
            },
            is_stable: false,
            timeout: found.timeout,
        })),
        Err(refused) => Ok(misread(alloc, &refused)),
    }
}

/// The command that releases a lock, to be answered within so many seconds.
pub(crate) fn release_of(alloc: Global, name: &[u8], timeout: u64) -> Result<Order, AllocError> {
    Ok(Order {
        line: line_of(alloc, b"release", name)?,
        errand: Errand::Other,
        is_stable: false,
        timeout,
    })
}

// A release of a lock.
fn release(alloc: Global, request: &Request<Bytes>, name: &[u8]) -> Result<Asked, AllocError> {
    match read_query(request.uri().query(), Takes::Release) {
        Ok(found) => release_of(alloc, name, found.timeout).map(Asked::Write),
        Err(refused) => Ok(misread(alloc, &refused)),
    }
}

/// What is asked of the lock of a name.
pub(crate) fn asked_of_lock(
    alloc: Global,
    request: &Request<Bytes>,
    name: &[u8],
) -> Result<Asked, AllocError> {
    match request.method().as_str() {
        "POST" => acquire(alloc, request, name),
        "DELETE" => release(alloc, request, name),
        "GET" | "HEAD" => {
            let asked = Asked::Lock(Vec::from_slice(alloc, name)?);
            Ok(read_only(alloc, request, asked))
        }
        _ => Ok(Asked::Refused(Refusal::OtherMethod)),
    }
}
