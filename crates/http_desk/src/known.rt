//! What is known of those who asked for a change, and what each is answered.

ghost use Rattle.std.specs.Prelude.{◌≡◌, ◌++◌, ◌∷◌, [], IfOk};
ghost use Rattle.keyed_state.specs.TokenText.{text_of_token};
ghost use Rattle.http_desk.specs.Replies.{Says, AnswersOutcome, AnswersLockFate, IsKnownOfMap, IsKnownOfLock, AreKnownOfMap, AreKnownOfLocks};

use crate::reply::{Media, Reply};
use address::ViewId;
use http::StatusCode;
use keyed_state::Token;
use replicated_map::Outcome;
use std::alloc::{AllocError, Global};
use vsync_text::{Part, Text};

/// What is known of a ticket.
#[derive(Drop)]
pub(crate) struct Known {
    pub(crate) ticket: u64,
    /// Where it is known.
    pub(crate) at: Option<(ViewId, u64)>,
    /// The answer; `None` if the message was handed back.
    pub(crate) reply: Option<Reply>,
}

// The answer to a command to the map that was delivered.
fn map_reply(alloc: Global, outcome: &Outcome) -> Reply
    ensures { AnswersOutcome outcome.now result }
{
    match outcome {
        Outcome::Stored(version) | Outcome::Removed(version) => {
            Reply::words(alloc, StatusCode::OK, b"done\n").of_version(alloc, version)
        }
        Outcome::Cleared => Reply::words(alloc, StatusCode::OK, b"done\n"),
        Outcome::Full => Reply::words(
            alloc,
            StatusCode::INSUFFICIENT_STORAGE,
            b"the map is full\n",
        ),
        Outcome::Differs(Some(held)) => Reply::held(alloc, StatusCode::PRECONDITION_FAILED, held),
        Outcome::Differs(None) => Reply::words(
            alloc,
            StatusCode::PRECONDITION_FAILED,
            b"the key has no value\n",
        ),
        Outcome::Missing => {
            Reply::words(alloc, StatusCode::NOT_FOUND, b"the key has no value\n")
        }
        Outcome::NoCommand => Reply::plain(alloc, StatusCode::BAD_REQUEST),
    }
}

fn known_of_map(alloc: Global, answer: &replicated_map::Answer) -> Known
    ensures { IsKnownOfMap answer.now result }
{
    let ticket = answer.ticket;
    match &answer.fate {
        replicated_map::Fate::Delivered(view, place, outcome) => Known {
            ticket,
            at: Some((*view, *place)),
            reply: Some(map_reply(alloc, outcome)),
        },
        replicated_map::Fate::HandedBack => Known {
            ticket,
            at: None,
            reply: None,
        },
    }
}

/// What is known by answers of the map's service, each by one.
pub(crate) fn all_of_map(
    alloc: Global,
    answers: &[replicated_map::Answer],
) -> Result<Vec<Known>, AllocError>
    ensures { IfOk result (λ all. AreKnownOfMap answers.now all.items) }
{
    let mut all = Vec::new(alloc);
    for answer in answers {
        all.push(known_of_map(alloc, answer))?;
    }
    Ok(all)
}

// A token with a line feed.
fn token_reply(alloc: Global, token: &Token) -> Reply
    ensures { Says 200 (text_of_token token.now ++ 10 ∷ []) result }
{
    let mut body = Text::new(alloc);
    body.put_parts(&[
        Part::View(token.view),
        Part::Text(b"/"),
        Part::Number(token.count),
        Part::Text(b"\n"),
    ]);
    Reply::of(StatusCode::OK, Media::Text, body)
}

// The answer to a request for a lock, or to a release of one.
fn lock_reply(alloc: Global, fate: &lock_table::Fate) -> Option<Reply>
    ensures { AnswersLockFate fate.now result }
{
    let reply = match fate {
        lock_table::Fate::Granted(token) => token_reply(alloc, token),
        lock_table::Fate::Full => Reply::words(
            alloc,
            StatusCode::INSUFFICIENT_STORAGE,
            b"the table is full\n",
        ),
        lock_table::Fate::Gone => Reply::words(
            alloc,
            StatusCode::SERVICE_UNAVAILABLE,
            b"the node does not wait for the lock any more\n",
        ),
        lock_table::Fate::Released => Reply::words(alloc, StatusCode::OK, b"done\n"),
        lock_table::Fate::NotHeld => Reply::words(
            alloc,
            StatusCode::NOT_FOUND,
            b"the node neither holds the lock nor waits for it\n",
        ),
        lock_table::Fate::NoRequest => Reply::plain(alloc, StatusCode::BAD_REQUEST),
        lock_table::Fate::HandedBack => return None,
    };
    Some(reply)
}

fn known_of_lock(alloc: Global, answer: &lock_table::Answer) -> Known
    ensures { IsKnownOfLock answer.now result }
{
    Known {
        ticket: answer.ticket,
        at: Some((answer.view, answer.place)),
        reply: lock_reply(alloc, &answer.fate),
    }
}

/// What is known by answers of the locks' service, each by one.
pub(crate) fn all_of_locks(
    alloc: Global,
    answers: &[lock_table::Answer],
) -> Result<Vec<Known>, AllocError>
    ensures { IfOk result (λ all. AreKnownOfLocks answers.now all.items) }
{
    let mut all = Vec::new(alloc);
    for answer in answers {
        all.push(known_of_lock(alloc, answer))?;
    }
    Ok(all)
}
