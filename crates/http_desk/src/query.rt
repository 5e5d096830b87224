//! The query of a request: the parameters behind the `?`, joined by `&` (docs/HTTP.md, "All requests").

use crate::PATIENCE;
use percent_encoding::percent_decode;
use std::alloc::{AllocError, Global};
use vsync_text::{Part, Text};

/// Which parameters a request may have.
#[derive(Clone, Copy)]
pub(crate) enum Takes {
    /// None.
    Nothing,
    /// `stable` and `timeout`.
    MapWrite,
    /// `after`.
    MapRead,
    /// `wait` and `timeout`.
    Acquire,
    /// `timeout`.
    Release,
}

/// The parameters of a request.
#[derive(Clone, Copy)]
pub(crate) struct Parameters<'a> {
    /// Whether the write is answered only when all members of the view have delivered it.
    pub(crate) is_stable: bool,
    /// For how many seconds the answer to a write is waited for at most.
    pub(crate) timeout: u64,
    /// For how many seconds a lock is waited for.
    pub(crate) wait: u64,
    /// Behind which place changes are asked for, percent-encoded.
    pub(crate) after: Option<&'a str>,
}

/// What is wrong with a parameter.
#[derive(Clone, Copy)]
pub(crate) enum Wrong {
    /// The request does not take it.
    Unknown,
    /// It is there twice.
    Twice,
    /// It takes no value.
    Value,
    /// It takes a number of seconds in another range.
    Number,
}

/// A parameter that is refused, by its name.
#[derive(Clone, Copy)]
pub(crate) struct Refused<'a> {
    name: &'a str,
    wrong: Wrong,
    takes: Takes,
}

// The parameters that were seen so far.
#[derive(Clone, Copy)]
struct Seen {
    stable: bool,
    timeout: bool,
    wait: bool,
    after: bool,
}

// Sets a flag; refuses what was seen before.
fn once(seen: &mut bool) -> Result<(), Wrong> {
    if *seen {
        return Err(Wrong::Twice);
    }
    *seen = true;
    Ok(())
}

// A number of seconds, from `least` to `PATIENCE`.
fn seconds(value: Option<&str>, least: u64) -> Result<u64, Wrong> {
    let Some(text) = value else {
        return Err(Wrong::Number);
    };
    match text.parse::<u64>() {
        Ok(seconds) if (seconds >= least) & (seconds <= PATIENCE) => Ok(seconds),
        _ => Err(Wrong::Number),
    }
}

// Takes a parameter of a name and perhaps a value.
fn take<'a>(
    found: &mut Parameters<'a>,
    seen: &mut Seen,
    takes: Takes,
    name: &'a str,
    value: Option<&'a str>,
) -> Result<(), Wrong> {
    match (takes, name) {
        (Takes::MapWrite, "stable") => {
            once(&mut seen.stable)?;
            found.is_stable = true;
            if value.is_some() {
                return Err(Wrong::Value);
            }
        }
        (Takes::MapWrite | Takes::Acquire | Takes::Release, "timeout") => {
            once(&mut seen.timeout)?;
            found.timeout = seconds(value, 1)?;
        }
        (Takes::Acquire, "wait") => {
            once(&mut seen.wait)?;
            found.wait = seconds(value, 0)?;
        }
        (Takes::MapRead, "after") => {
            once(&mut seen.after)?;
            found.after = Some(value.unwrap_or(""));
        }
        _ => return Err(Wrong::Unknown),
    }
    Ok(())
}

/// Reads the parameters of a query, all of which the request must take; else the first that is refused.
pub(crate) fn read_query<'a>(
    query: Option<&'a str>,
    takes: Takes,
) -> Result<Parameters<'a>, Refused<'a>> {
    let mut found = Parameters {
        is_stable: false,
        timeout: PATIENCE,
        wait: PATIENCE,
        after: None,
    };
    let mut seen = Seen {
        stable: false,
        timeout: false,
        wait: false,
        after: false,
    };
    let mut rest = query.unwrap_or("");
    for _ in 0..rest.len() {
        let (field, more) = match rest.split_once("&") {
            Some((field, more)) => (field, Some(more)),
            None => (rest, None),
        };
        let (name, value) = match field.split_once("=") {
            Some((name, value)) => (name, Some(value)),
            None => (field, None),
        };
        if let Err(wrong) = take(&mut found, &mut seen, takes, name, value) {
            return Err(Refused { name, wrong, takes });
        }
        match more {
            Some(more) => rest = more,
            None => return Ok(found),
        }
    }
    Ok(found)
}

impl<'a> Refused<'a> {
    /// What is wrong, in words, with a line feed.
    pub(crate) fn words(&self, alloc: Global) -> Text {
        let mut out = Text::new(alloc);
        let what: &[u8] = match self.wrong {
            Wrong::Unknown => b": this request does not take the parameter; it takes ",
            Wrong::Twice => b": the parameter is there twice; this request takes ",
            Wrong::Value => b": the parameter takes no value; this request takes ",
            Wrong::Number => b": the parameter is out of its range; this request takes ",
        };
        let takes: &[u8] = match self.takes {
            Takes::Nothing => b"none",
            Takes::MapWrite => b"stable, and timeout=SECONDS from 1 to 30",
            Takes::MapRead => b"after=ETAG",
            Takes::Acquire => b"wait=SECONDS from 0 to 30, and timeout=SECONDS from 1 to 30",
            Takes::Release => b"timeout=SECONDS from 1 to 30",
        };
        out.put_parts(&[
            Part::Text(self.name.as_bytes()),
            Part::Text(what),
            Part::Text(takes),
            Part::Text(b"\n"),
        ]);
        out
    }
}

/// The bytes that a text stands for, in which a byte may be `%` and two digits of hexadecimal.
pub(crate) fn decoded(alloc: Global, text: &[u8]) -> Result<Vec<u8>, AllocError> {
    let mut bytes = Vec::new(alloc);
    percent_decode(text).append_to(&mut bytes)?;
    Ok(bytes)
}
