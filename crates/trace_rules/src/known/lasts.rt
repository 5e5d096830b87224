ghost use Rattle.std.specs.Prelude.{◌≡◌, OnOk, if◌then◌else◌};
ghost use Rattle.std.specs.List.{position_from};
ghost use Rattle.address.specs.Ids.{Address, same_address};
ghost use Rattle.trace_rules.specs.Lasts.{number_of};

use address::Address;
use std::alloc::AllocError;

/// The number of the last message of a sender. Of the senders of a view there are few, so that they are looked through in turn.
#[derive(Clone, Copy)]
pub struct Last {
    pub sender: Address,
    pub number: u64,
}

/// The number that is kept for a sender, 0 where none is.
pub fn last_of(lasts: &[Last], sender: Address) -> u64
    ensures { result ≡ number_of lasts.now sender }
{
    for last in lasts {
        if last.sender == sender {
            return last.number;
        }
    }
    0
}

// Where the first stands that is kept for a sender.
fn place_of(lasts: &[Last], sender: Address) -> Option<usize>
    ensures { result ≡ position_from (λ l. same_address l.sender sender) 0 lasts.now }
{
    for (index, last) in lasts.iter().enumerate() {
        if last.sender == sender {
            return Some(index);
        }
    }
    None
}

/// Keeps a number for a sender, in place of the one before.
pub fn keep_last(lasts: &mut Vec<Last>, sender: Address, number: u64) -> Result<(), AllocError>
    ensures { OnOk result ((q : Address) → number_of lasts.new.items q ≡ (if same_address sender q then number else number_of lasts.old.items q)) }
{
    match place_of(lasts.as_slice(), sender) {
        Some(place) => {
            lasts[place] = Last { sender, number };
            Ok(())
        }
        None => {
            lasts.push(Last { sender, number })?;
            Ok(())
        }
    }
}
