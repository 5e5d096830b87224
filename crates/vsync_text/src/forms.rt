//! Lists joined by commas.

ghost use Rattle.std.specs.Prelude.{◌≡◌, ◌<◌, ◌∷◌, [], IfOk, IfSome, MatchOption};
ghost use Rattle.std.specs.Option.{option_copied};
ghost use Rattle.vsync_text.specs.Forms.{parts_left, left_len};
ghost use Rattle.vsync_text.specs.Spelling.{addresses_of_text};

use crate::{address_in, split_at_first};
use std::alloc::{AllocError, Global};
use view::Addresses;

/// The next part of what is left behind a comma, if something is, and what is left behind it.
#[tactic(auto, using(crate::proofs::ListsAreRead::first_of_parts, crate::proofs::ListsAreRead::less_left))]
pub(crate) fn next_part(left: Option<&[u8]>) -> Option<(&[u8], Option<&[u8]>)>
    ensures part { MatchOption result (parts_left (option_copied left.entry) ≡ []) (λ next. parts_left (option_copied left.entry) ≡ next.0.now ∷ parts_left (option_copied next.1)) }
    ensures less { IfSome result (λ next. left_len (option_copied next.1) < left_len (option_copied left.entry)) }
{
    match left {
        None => None,
        Some(text) => Some(split_at_first(b',', text)),
    }
}

/// The addresses that a field spells, joined by commas.
#[tactic(auto, using(crate::proofs::ListsAreRead::part_read, crate::proofs::ListsAreRead::part_fails, crate::proofs::ListsAreRead::all_read), unfolding(crate::specs::Spelling::addresses_of_text))]
pub(crate) fn addresses_in(alloc: Global, field: &[u8]) -> Result<Option<Addresses>, AllocError>
    ensures { IfOk result (λ read. read ≡ addresses_of_text field.now) }
{
    let mut addresses = Vec::new(alloc);
    let mut left = Some(field);
    while let Some((part, behind)) = next_part(left) {
        let Some(address) = address_in(part) else {
            return Ok(None);
        };
        addresses.push(address)?;
        left = behind;
    }
    Ok(Some(Addresses::from_vec(addresses)))
}
