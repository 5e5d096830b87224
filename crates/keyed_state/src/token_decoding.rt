//! Tokens from bytes.

ghost use Rattle.std.specs.Prelude.{◌≡◌, IfSome};
ghost use Rattle.big_endian.specs.Reading.{IsReadOrNone};
ghost use Rattle.keyed_state.specs.Tokens.{IsToken};
ghost use Rattle.keyed_state.specs.Spelling.{view_id_at, token_at};

use crate::{Token, known_view_id};
use address::ViewId;
use address::limits::GREATEST_NUMBER;
use big_endian::Reader;

/// Takes a view id off the front of what a reader has left. `None` where the bytes begin with none; then nothing is said of the reader.
#[tactic(auto, unfolding(crate::specs::Spelling::view_id_at))]
pub fn view_id_from(from: &mut Reader<'_>) -> Option<ViewId>
    ensures { IsReadOrNone (λ x. (x, from.new)) result (view_id_at from.old) }
{
    let counter = from.u64(1, GREATEST_NUMBER)?;
    let creator = from.address()?;
    ViewId::new(counter, creator)
}

/// Takes a token off the front of what a reader has left. `None` where the bytes begin with none; then nothing is said of the reader.
#[tactic(auto, unfolding(crate::specs::Spelling::token_at))]
pub fn token_from(from: &mut Reader<'_>) -> Option<Token>
    ensures gives { IsReadOrNone (λ x. (x, from.new)) result (token_at from.old) }
    ensures token { IfSome result (λ t. IsToken t) }
{
    let view = view_id_from(from)?;
    known_view_id(view);
    let count = from.u64(0, GREATEST_NUMBER)?;
    Some(Token { view, count })
}
