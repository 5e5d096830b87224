//! What a request asks of the map.

use crate::history::place_in;
use crate::query::{Parameters, Takes, decoded, read_query};
use crate::refusal::Refusal;
use crate::request::{Asked, Errand, Order, is_read, misread, read_only};
use address::limits::PAYLOAD;
use bytes::Bytes;
use http::{HeaderName, Request, header};
use keyed_state::{KeyBytes, Token, token_in};
use replicated_map::{Command, ValueBytes, Version};
use std::alloc::{AllocError, Global};
use vsync_text::{Part, Text};

// The value of a header; the first one if it is there more than once.
fn header_of(request: &Request<Bytes>, name: HeaderName) -> Option<&[u8]> {
    match request.headers().get(name) {
        Some(value) => Some(value.as_bytes()),
        None => None,
    }
}

// The version that an entity tag names, in quotes; `None` where it names none.
fn tagged(tag: &[u8]) -> Option<Version> {
    match tag {
        [b'"', text @ .., b'"'] => Version::new(token_in(text)?),
        _ => None,
    }
}

// Adds the line of a command that names a version.
fn put_versioned<'a>(line: &mut Text, word: &'a [u8], key: &'a [u8], token: Token) {
    line.put_parts(&[
        Part::Text(word),
        Part::Text(b" "),
        Part::Text(key),
        Part::Text(b" "),
        Part::View(token.view),
        Part::Text(b"/"),
        Part::Number(token.count),
    ]);
}

// Adds a word and fields, each behind a space.
fn put_words(line: &mut Text, word: &[u8], fields: &[&[u8]]) {
    line.put(word);
    for field in fields {
        line.put(b" ");
        line.put(field);
    }
}

// Adds the line that says a command.
fn put_command<'a>(line: &mut Text, command: &Command<'a>) {
    match command {
        Command::Put { key, value, .. } => {
            put_words(line, b"put", &[key.as_slice(), value.as_slice()])
        }
        Command::Remove(key) => put_words(line, b"remove", &[key.as_slice()]),
        Command::Replace {
            expected,
            key,
            value,
            ..
        } => {
            let expected = match expected {
                Some(expected) => expected.as_slice(),
                None => b"-",
            };
            put_words(
                line,
                b"replace",
                &[key.as_slice(), expected, value.as_slice()],
            );
        }
        Command::Clear => line.put(b"clear"),
        Command::ReplaceAt {
            version,
            key,
            value,
            ..
        } => {
            put_versioned(line, b"replace_at", key.as_slice(), version.token());
            line.put(b" ");
            line.put(value.as_slice());
        }
        Command::RemoveAt { version, key } => {
            put_versioned(line, b"remove_at", key.as_slice(), version.token())
        }
    }
}

/// The line that says a command (docs/RECEIVERS.md, "The map's lines").
pub(crate) fn line_of(alloc: Global, command: &Command<'_>) -> Result<Vec<u8>, AllocError> {
    let mut line = Text::new(alloc);
    put_command(&mut line, command);
    line.whole()
}

// A command whose line fits.
fn write_of(
    alloc: Global,
    command: &Command<'_>,
    found: &Parameters<'_>,
) -> Result<Asked, AllocError> {
    let line = line_of(alloc, command)?;
    if line.contains(&b'\n') {
        return Ok(Asked::Refused(Refusal::BadValue));
    }
    if line.len() > PAYLOAD {
        return Ok(Asked::Refused(Refusal::LongValue));
    }
    Ok(Asked::Write(Order {
        line,
        errand: Errand::Other,
        is_stable: found.is_stable,
        timeout: found.timeout,
    }))
}

// A put: of any value, if the key has none, or if its value is of the version that a tag names. Its line names no view: the node stamps it when it is sent.
fn put<'a>(request: &'a Request<Bytes>, key: KeyBytes<'a>) -> Result<Command<'a>, Refusal> {
    let Some(value) = ValueBytes::new(request.body().as_slice()) else {
        return Err(Refusal::LongValue);
    };
    let view = Token::least().view;
    match (
        header_of(request, header::IF_MATCH),
        header_of(request, header::IF_NONE_MATCH),
    ) {
        (None, None) => Ok(Command::Put { view, key, value }),
        (None, Some(b"*")) => Ok(Command::Replace {
            view,
            expected: None,
            key,
            value,
        }),
        (Some(tag), None) => Ok(Command::ReplaceAt {
            view,
            version: tagged(tag).ok_or(Refusal::BadVersion)?,
            key,
            value,
        }),
        _ => Err(Refusal::BadCondition),
    }
}

// A removal: of any value, or of one of the version that a tag names.
fn remove<'a>(request: &Request<Bytes>, key: KeyBytes<'a>) -> Result<Command<'a>, Refusal> {
    match (
        header_of(request, header::IF_MATCH),
        header_of(request, header::IF_NONE_MATCH),
    ) {
        (None, None) => Ok(Command::Remove(key)),
        (Some(tag), None) => Ok(Command::RemoveAt {
            version: tagged(tag).ok_or(Refusal::BadVersion)?,
            key,
        }),
        _ => Err(Refusal::BadCondition),
    }
}

/// What is asked of a key.
pub(crate) fn asked_of_key<'a>(
    alloc: Global,
    request: &'a Request<Bytes>,
    key: KeyBytes<'a>,
) -> Result<Asked, AllocError> {
    let command = match request.method().as_str() {
        "PUT" => put(request, key),
        "DELETE" => remove(request, key),
        "GET" | "HEAD" => {
            let asked = Asked::Value(Vec::from_slice(alloc, key.as_slice())?);
            return Ok(read_only(alloc, request, asked));
        }
        _ => Err(Refusal::OtherMethod),
    };
    match (command, read_query(request.uri().query(), Takes::MapWrite)) {
        (Err(refusal), _) => Ok(Asked::Refused(refusal)),
        (Ok(_), Err(refused)) => Ok(misread(alloc, &refused)),
        (Ok(command), Ok(found)) => write_of(alloc, &command, &found),
    }
}

/// What is asked of all entries: what they are, or what changed behind a place.
pub(crate) fn asked_of_all(alloc: Global, request: &Request<Bytes>) -> Result<Asked, AllocError> {
    if !is_read(request) {
        return Ok(Asked::Refused(Refusal::OtherMethod));
    }
    match read_query(request.uri().query(), Takes::MapRead) {
        Ok(found) => match found.after {
            Some(text) => {
                let text = decoded(alloc, text.as_bytes())?;
                Ok(Asked::Changes(place_in(text.as_slice())))
            }
            None => Ok(Asked::All),
        },
        Err(refused) => Ok(misread(alloc, &refused)),
    }
}
