//! Tokens in texts (docs/RECEIVERS.md, "Tokens").

ghost use Rattle.std.specs.Prelude.{◌≡◌, ◌++◌, ◌∷◌, IfSome, OnOk};
ghost use Rattle.vsync_text.specs.TraceText.{GoesOnFrom};
ghost use Rattle.keyed_state.specs.Tokens.{IsToken};
ghost use Rattle.keyed_state.specs.TokenText.{text_of_token, token_of_text};

use crate::{Token, known_view_id};
use address::limits::GREATEST_NUMBER;
use std::alloc::AllocError;
use vsync_text::{number_in, put_number, put_view_id, split_at_first, view_id_in};

/// Appends a token behind one byte: `VIEW/COUNT`, such as `3@1.1/2`. Where memory is refused, what stood before is kept, and a part may have been appended.
#[tactic(auto, using(vsync_text::proofs::KeepFront::goes_on))]
pub fn put_token_text(out: &mut Vec<u8>, before: u8, token: &Token) -> Result<(), AllocError>
    ensures text { OnOk result (out.new.items ≡ out.old.items ++ before ∷ text_of_token token.now) }
    ensures kept { GoesOnFrom out.old.items out.new.items }
{
    put_view_id(out, before, &token.view)?;
    put_number(out, b'/', token.count)
}

/// The token that a text spells, `VIEW/COUNT` with a count of 0 to `GREATEST_NUMBER`; `None` where it is anything else.
#[tactic(auto, unfolding(crate::specs::TokenText::token_of_text))]
pub fn token_in(text: &[u8]) -> Option<Token>
    ensures gives { result ≡ token_of_text text.now }
    ensures token { IfSome result (λ t. IsToken t) }
{
    let (view, behind) = split_at_first(b'/', text);
    let view = view_id_in(view)?;
    known_view_id(view);
    let count = number_in(0, GREATEST_NUMBER, behind?)?;
    Some(Token { view, count })
}
