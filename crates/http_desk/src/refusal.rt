//! What is wrong with a request.

use http::StatusCode;

/// What is wrong with a request that a desk does not carry out.
#[derive(Clone, Copy, PartialEq, Eq)]
pub(crate) enum Refusal {
    BadKey,
    BadValue,
    BadCondition,
    BadVersion,
    LongValue,
    NoPath,
    NotKept,
    OtherMethod,
}

impl Refusal {
    /// The status that it is answered with.
    pub(crate) fn status(self) -> StatusCode {
        match self {
            Refusal::BadKey | Refusal::BadValue | Refusal::BadCondition => StatusCode::BAD_REQUEST,
            Refusal::BadVersion => StatusCode::BAD_REQUEST,
            Refusal::LongValue => StatusCode::PAYLOAD_TOO_LARGE,
            Refusal::NoPath | Refusal::NotKept => StatusCode::NOT_FOUND,
            Refusal::OtherMethod => StatusCode::METHOD_NOT_ALLOWED,
        }
    }

    /// The same in words.
    pub(crate) fn words(self) -> &'static [u8] {
        match self {
            Refusal::BadKey =>
                b"a key has 1 to 64 bytes, and none of them is a space or a line feed\n",
            Refusal::BadValue => b"a value has no line feed\n",
            Refusal::BadCondition => b"no such condition: see docs/HTTP.md\n",
            Refusal::BadVersion => b"If-Match takes an ETag of the key, such as \"3@1.1/7\"\n",
            Refusal::LongValue =>
                b"a value has at most 400 bytes, and the whole command at most 512\n",
            Refusal::NoPath => b"there is no such path\n",
            Refusal::NotKept => b"this node keeps something else, or nothing\n",
            Refusal::OtherMethod => b"not by this method\n",
        }
    }
}
