ghost use Rattle.std.specs.Prelude.{◌≡◌};
ghost use Rattle.std.specs.Option.{SomeIff};
ghost use Rattle.keyed_state.specs.Tokens.{IsToken};
ghost use Rattle.replicated_map.specs.Entries.{IsValue};

use crate::VALUE;
use address::limits::GREATEST_NUMBER;
use keyed_state::{Token, known_view_id};
use std::marker::Model;

/// A value in lent bytes, at most `VALUE` of them.
#[derive(Drop)]
pub struct ValueBytes<'a> {
    value: &'a [u8],
}

impl<'a> Model for ValueBytes<'a> {
    ghost use Rattle.std.specs.Prelude.{List, ℕ};
    ghost use Rattle.replicated_map.specs.Entries.{IsValue};

    ghost Value = { List ℕ };

    ghost view = { λ v. v.value.now };

    ghost invariant = { λ v. IsValue v.value.now };
}

impl<'a> ValueBytes<'a> {
    /// The value of these bytes; `None` for more than `VALUE`.
    pub fn new(bytes: &'a [u8]) -> Option<ValueBytes<'a>>
        ensures { SomeIff result (IsValue bytes.now) bytes.now }
    {
        if bytes.len() > VALUE {
            return None;
        }
        Some(ValueBytes { value: bytes })
    }

    /// Its bytes.
    pub fn as_slice(&self) -> &'a [u8]
        ensures bytes { result.now ≡ self.now }
        ensures value { IsValue result.now }
    {
        self.value
    }
}

/// The version that a command names: a token that can be spelled.
#[derive(Drop)]
pub struct Version {
    token: Token,
}

impl Model for Version {
    ghost use Rattle.keyed_state.specs.declared.token.Token.{Token};
    ghost use Rattle.keyed_state.specs.Tokens.{IsToken};

    ghost Value = { Token };

    ghost view = { λ v. v.token };

    ghost invariant = { λ v. IsToken v.token };
}

impl Version {
    /// The version of this token; `None` for a count above `GREATEST_NUMBER`.
    pub fn new(token: Token) -> Option<Version>
        ensures { SomeIff result (IsToken token) token }
    {
        known_view_id(token.view);
        if token.count > GREATEST_NUMBER {
            return None;
        }
        Some(Version { token })
    }

    /// The token.
    pub fn token(&self) -> Token
        ensures token { result ≡ self.now }
        ensures is { IsToken result }
    {
        self.token
    }
}
