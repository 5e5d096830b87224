ghost use Rattle.std.specs.Prelude.{◌≡◌, ◌+◌, ◌≤◌, ◌<◌, ◌^◌};
ghost use Rattle.keyed_state.specs.Tokens.{least_token, next_token};

use address::{Address, Node, ViewId};
use std::cmp::Ordering;

/// A number that rises with what it is given to, such as the grants of locks or the values of a map: first by the view of the command by which it was given, then by a count.
#[derive(Clone, Copy, Debug, PartialEq, Eq, PartialOrd, Ord)]
pub struct Token {
    /// The view of the command, or a later one of which a token was given before.
    pub view: ViewId,
    /// Counts those of that view, from 1.
    pub count: u64,
}

impl Token {
    /// The least token, which is given to nothing: `1@1.1` with the count 0.
    pub fn least() -> Token
        ensures { result ≡ least_token }
    {
        match Node::new(1) {
            None => unreachable!(),
            Some(node) => Token {
                view: ViewId::first_of(Address::first_at(node)),
                count: 0,
            },
        }
    }

    /// The token after this one, by a command of a view: the view's first where the view is above this token's, or else the one of the next count.
    pub fn next(self, view: ViewId) -> Token
        requires { self.count < 2 ^ 63 }
        ensures { result ≡ next_token view self }
    {
        if self.view.cmp(&view) == Ordering::Less {
            return Token { view, count: 1 };
        }
        Token {
            view: self.view,
            count: self.count + 1,
        }
    }
}
