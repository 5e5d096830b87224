//! What a request asks.

use crate::kept::Keeps;
use crate::lock_request::asked_of_lock;
use crate::map_request::{asked_of_all, asked_of_key};
use crate::query::{Refused, Takes, decoded, read_query};
use crate::refusal::Refusal;
use bytes::Bytes;
use http::Request;
use keyed_state::KeyBytes;
use std::alloc::{AllocError, Global};
use tickets::Place;

/// What a command asks for that outlives its message.
#[derive(PartialEq, Eq, Drop)]
pub(crate) enum Errand {
    /// That the node holds a lock: it is told so after at most so many seconds, and waits on.
    Acquire { name: Vec<u8>, wait: u64 },
    /// Nothing.
    Other,
}

/// A command that is to be sent.
#[derive(PartialEq, Eq, Drop)]
pub(crate) struct Order {
    /// The line that says it.
    pub(crate) line: Vec<u8>,
    pub(crate) errand: Errand,
    /// Whether it is answered only when all members of the view have delivered it.
    pub(crate) is_stable: bool,
    /// Within how many seconds it is answered.
    pub(crate) timeout: u64,
}

impl Errand {
    // A copy.
    fn copied(&self, alloc: Global) -> Result<Errand, AllocError> {
        match self {
            Errand::Acquire { name, wait } => Ok(Errand::Acquire {
                name: Vec::from_slice(alloc, name.as_slice())?,
                wait: *wait,
            }),
            Errand::Other => Ok(Errand::Other),
        }
    }
}

impl Order {
    /// A copy.
    pub(crate) fn copied(&self, alloc: Global) -> Result<Order, AllocError> {
        Ok(Order {
            line: Vec::from_slice(alloc, self.line.as_slice())?,
            errand: self.errand.copied(alloc)?,
            is_stable: self.is_stable,
            timeout: self.timeout,
        })
    }
}

/// What a request asks.
#[derive(PartialEq, Eq)]
pub(crate) enum Asked {
    /// The value of a key.
    Value(Vec<u8>),
    /// That a command is carried out.
    Write(Order),
    /// All that is kept.
    All,
    /// What changed behind a place; `None` where its text names none.
    Changes(Option<Place>),
    /// Who holds a lock.
    Lock(Vec<u8>),
    /// How the node stands.
    Status,
    /// The same as counters.
    Metrics,
    /// What happened last.
    Events,
    /// The same as a picture.
    Picture,
    /// The page for a browser.
    Page,
    /// That the node leaves its group and ends.
    Leave,
    /// Nothing that a desk does.
    Refused(Refusal),
    /// Something with a parameter that it does not take, as these words say.
    Misread(Vec<u8>),
}

impl Drop for Asked {
    fn drop(self) {
        match self {
            Asked::Value(_) => {}
            Asked::Write(_) => {}
            Asked::All => {}
            Asked::Changes(_) => {}
            Asked::Lock(_) => {}
            Asked::Status => {}
            Asked::Metrics => {}
            Asked::Events => {}
            Asked::Picture => {}
            Asked::Page => {}
            Asked::Leave => {}
            Asked::Refused(_) => {}
            Asked::Misread(_) => {}
        }
    }
}

/// Whether a request only reads.
pub(crate) fn is_read(request: &Request<Bytes>) -> bool {
    match request.method().as_str() {
        "GET" | "HEAD" => true,
        _ => false,
    }
}

/// What is asked by a request with a parameter that it does not take.
pub(crate) fn misread(alloc: Global, refused: &Refused<'_>) -> Asked {
    match refused.words(alloc).whole() {
        Ok(words) => Asked::Misread(words),
        Err(_) => Asked::Misread(Vec::new(alloc)),
    }
}

/// What can only be read, and takes no parameters.
pub(crate) fn read_only(alloc: Global, request: &Request<Bytes>, asked: Asked) -> Asked {
    if !is_read(request) {
        return Asked::Refused(Refusal::OtherMethod);
    }
    match read_query(request.uri().query(), Takes::Nothing) {
        Ok(_) => asked,
        Err(refused) => misread(alloc, &refused),
    }
}

// What a path names of what a node may keep, and the name of one item, percent-encoded, unless it is all; `None` for other paths.
fn named_by(path: &str) -> Option<(Keeps, Option<&str>)> {
    if let Some(key) = path.strip_prefix("/map/") {
        return Some((Keeps::Map, Some(key)));
    }
    if let Some(name) = path.strip_prefix("/locks/") {
        return Some((Keeps::Locks, Some(name)));
    }
    match path {
        "/map" => Some((Keeps::Map, None)),
        "/locks" => Some((Keeps::Locks, None)),
        _ => None,
    }
}

// The key of these bytes, if it can be a field of a line.
fn key_of(bytes: &[u8]) -> Option<KeyBytes<'_>> {
    if bytes.contains(&b' ') | bytes.contains(&b'\n') {
        return None;
    }
    KeyBytes::new(bytes)
}

// What is asked of an item of what the node keeps, whose name is percent-encoded.
fn asked_of_item(
    alloc: Global,
    request: &Request<Bytes>,
    keeps: Keeps,
    name: &str,
) -> Result<Asked, AllocError> {
    let name = decoded(alloc, name.as_bytes())?;
    match (keeps, key_of(name.as_slice())) {
        (Keeps::Map, Some(key)) => asked_of_key(alloc, request, key),
        (_, Some(key)) => asked_of_lock(alloc, request, key.as_slice()),
        (_, None) => Ok(Asked::Refused(Refusal::BadKey)),
    }
}

// What is asked of the node by `POST /leave`.
fn asked_to_leave(alloc: Global, request: &Request<Bytes>) -> Asked {
    if request.method().as_str() != "POST" {
        return Asked::Refused(Refusal::OtherMethod);
    }
    match read_query(request.uri().query(), Takes::Nothing) {
        Ok(_) => Asked::Leave,
        Err(refused) => misread(alloc, &refused),
    }
}

// What is asked of the node itself: all but to leave can only be read.
fn asked_of_node(alloc: Global, request: &Request<Bytes>) -> Asked {
    let asked = match request.uri().path() {
        "/status" => Asked::Status,
        "/metrics" => Asked::Metrics,
        "/events" => Asked::Events,
        "/picture" => Asked::Picture,
        "/" => Asked::Page,
        "/leave" => return asked_to_leave(alloc, request),
        _ => return Asked::Refused(Refusal::NoPath),
    };
    read_only(alloc, request, asked)
}

/// What a request asks of a node that keeps this.
pub(crate) fn asked_by(
    alloc: Global,
    request: &Request<Bytes>,
    keeps: Keeps,
) -> Result<Asked, AllocError> {
    match named_by(request.uri().path()) {
        Some((kind, _)) if kind != keeps => Ok(Asked::Refused(Refusal::NotKept)),
        Some((_, Some(name))) => asked_of_item(alloc, request, keeps, name),
        Some((Keeps::Locks, None)) => Ok(read_only(alloc, request, Asked::All)),
        Some((_, None)) => asked_of_all(alloc, request),
        None => Ok(asked_of_node(alloc, request)),
    }
}
