//! A guard: what a server of a locked resource keeps, to refuse the holders of older grants.

ghost use Rattle.std.specs.Prelude.{◌≡◌};
ghost use Rattle.lock_fencing.specs.Guards.{kept_after, serves};

use lock_table::Token;
use std::cmp::Ordering;
use std::marker::Model;

/// Keeps the greatest token that it served, and refuses each lower one (docs/RECEIVERS.md, "The table of locks"). Contracts see it as that token; `None` before the first.
/// A server of a locked resource has one guard for each resource, and asks it at each request.
#[derive(Drop)]
pub struct Guard {
    greatest: Option<Token>,
}

impl Model for Guard {
    ghost use Rattle.std.specs.Prelude.{Option};
    ghost use Rattle.keyed_state.specs.declared.token.Token.{Token};

    ghost Value = { Option Token };

    ghost view = { λ g. g.greatest };
}

impl Guard {
    /// A guard that goes on from the greatest token that was served so far; `None` if none was. A server that starts again gives it the one that it stored.
    pub fn new(greatest: Option<Token>) -> Guard
        ensures { result ≡ greatest }
    {
        Guard { greatest }
    }

    /// The greatest token that was served; `None` before the first. A server stores it before it serves the request.
    pub fn greatest(&self) -> Option<Token>
        ensures { result ≡ self.now }
    {
        self.greatest
    }

    /// Whether a request with this token may be served. If so, the guard keeps the token; otherwise it is as before. It refuses the tokens below the greatest one, and no others.
    pub fn serve(&mut self, token: Token) -> bool
        ensures answers { result ≡ serves self.old token }
        ensures keeps { self.new ≡ kept_after self.old token }
    {
        if let Some(greatest) = &self.greatest {
            if greatest.cmp(&token) == Ordering::Greater {
                return false;
            }
        }
        self.greatest = Some(token);
        true
    }
}
