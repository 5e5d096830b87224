//! What is answered to a request.

ghost use Rattle.std.specs.Prelude.{◌≡◌, None, Some, false};
ghost use Rattle.http_desk.specs.Replies.{Says, IsTagged};

use crate::json::put_token;
use bytes::Bytes;
use http::StatusCode;
use keyed_state::Token;
use replicated_map::Held;
use std::alloc::Global;
use tickets::Place;
use vsync_text::{Part, Text};

/// What a body is.
#[derive(Clone, Copy)]
pub(crate) enum Media {
    Bytes,
    Text,
    Json,
    Html,
    Metrics,
    Svg,
}

impl Media {
    /// Its name in a `content-type`.
    pub(crate) fn name(self) -> &'static [u8] {
        match self {
            Media::Bytes => b"application/octet-stream",
            Media::Text => b"text/plain; charset=utf-8",
            Media::Json => b"application/json",
            Media::Html => b"text/html; charset=utf-8",
            Media::Metrics => b"text/plain; version=0.0.4",
            Media::Svg => b"image/svg+xml",
        }
    }
}

/// An answer. Where memory was refused to a part of it, its connection ends instead.
pub(crate) struct Reply {
    pub(crate) status: StatusCode,
    pub(crate) media: Media,
    /// The entity tag.
    pub(crate) tag: Option<Text>,
    /// The view and the place that it speaks of.
    pub(crate) place: Option<Text>,
    pub(crate) body: Text,
    /// What stands behind the body: bytes that several answers share.
    pub(crate) shared: Option<Bytes>,
}

impl Drop for Reply {
    fn drop(self) {
        let Reply {
            status: _,
            media: _,
            tag: _,
            place: _,
            body: _,
            shared: _,
        } = self;
    }
}

// What a status says in words.
fn words_of(status: StatusCode) -> &'static [u8] {
    match status.as_u16() {
        200 => b"done\n",
        400 => b"no such request: see docs/HTTP.md\n",
        404 => b"there is none\n",
        409 => b"another holds the lock: the node waits for it on, until DELETE\n",
        410 => b"that is too long ago: GET /map has all\n",
        503 => b"not now\n",
        _ => b"",
    }
}

// Whether a text is there and lacks a part.
fn lacks(text: &Option<Text>) -> bool {
    match text {
        Some(text) => text.is_short(),
        None => false,
    }
}

impl Reply {
    /// A body of some kind.
    pub(crate) fn of(status: StatusCode, media: Media, body: Text) -> Reply
        ensures status { result.status ≡ status }
        ensures body { result.body ≡ body }
        ensures shared { result.shared ≡ None }
    {
        Reply {
            status,
            media,
            tag: None,
            place: None,
            body,
            shared: None,
        }
    }

    /// A status and words.
    pub(crate) fn words(alloc: Global, status: StatusCode, words: &[u8]) -> Reply
        ensures { Says status words.now result }
    {
        let mut body = Text::new(alloc);
        body.put(words);
        Reply::of(status, Media::Text, body)
    }

    /// A status, and what it says in words.
    pub(crate) fn plain(alloc: Global, status: StatusCode) -> Reply
        ensures { result.status ≡ status }
    {
        Reply::words(alloc, status, words_of(status))
    }

    /// A value, whose entity tag is its version.
    pub(crate) fn held(alloc: Global, status: StatusCode, held: &Held) -> Reply
        ensures says { Says status held.now.value result }
        ensures tag { IsTagged held.now.version result }
    {
        let mut body = Text::new(alloc);
        body.put(held.value.as_slice());
        Reply::of(status, Media::Bytes, body).of_version(alloc, &held.version)
    }

    /// The same, whose entity tag is a version.
    pub(crate) fn of_version(mut self, alloc: Global, version: &Token) -> Reply
        ensures status { result.status ≡ self.status }
        ensures body { result.body ≡ self.body }
        ensures shared { result.shared ≡ self.shared }
        ensures tag { IsTagged version.now result }
    {
        let mut tag = Text::new(alloc);
        put_token(&mut tag, version);
        self.tag = Some(tag);
        self
    }

    /// A refusal of a request, whose body is an object of JSON that names the error, such as `{"error": "unknown"}`.
    pub(crate) fn error(alloc: Global, status: StatusCode, error: &[u8]) -> Reply
        ensures { result.status ≡ status }
    {
        let mut body = Text::new(alloc);
        body.put(b"{\"error\": \"");
        body.put(error);
        body.put(b"\"}\n");
        Reply::of(status, Media::Json, body)
    }

    /// JSON that other answers share.
    pub(crate) fn sharing(alloc: Global, shared: Bytes) -> Reply
        ensures status { result.status ≡ 200 }
        ensures shared { result.shared ≡ Some shared }
    {
        let mut reply = Reply::of(StatusCode::OK, Media::Json, Text::new(alloc));
        reply.shared = Some(shared);
        reply
    }

    /// The same, whose entity tag is a place, which is written as a token is.
    pub(crate) fn since(self, alloc: Global, last: Option<Place>) -> Reply
        ensures status { result.status ≡ self.status }
        ensures body { result.body ≡ self.body }
        ensures shared { result.shared ≡ self.shared }
    {
        match last {
            Some(Place { view, count }) => self.of_version(alloc, &Token { view, count }),
            None => self,
        }
    }

    /// The same, which speaks of a place, such as 2@1.1/7.
    pub(crate) fn at(mut self, alloc: Global, at: &Place) -> Reply
        ensures status { result.status ≡ self.status }
        ensures body { result.body ≡ self.body }
        ensures shared { result.shared ≡ self.shared }
    {
        let mut place = Text::new(alloc);
        place.put_parts(&[
            Part::View(at.view),
            Part::Text(b"/"),
            Part::Number(at.count),
        ]);
        self.place = Some(place);
        self
    }

    /// Whether memory was refused to a part of it.
    pub(crate) fn is_short(&self) -> bool
        ensures { result ≡ false → self.now.body.is_short ≡ false }
    {
        self.body.is_short() | lacks(&self.tag) | lacks(&self.place)
    }
}
