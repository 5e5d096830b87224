//! Which ticket waits for which message.

ghost use Rattle.std.specs.Prelude.{◌≡◌, position};
ghost use Rattle.application.specs.Waits.{waits_for, ticket_of, others_of};

/// A ticket that waits for a message of its member: the message's number in the view, and the ticket for which it was sent.
#[derive(Clone, Copy, Drop)]
pub struct Waiting {
    pub number: u64,
    pub ticket: u64,
}

// Where the first stands that waits for a message of this number.
fn index_of(waiting: &[Waiting], number: u64) -> Option<usize>
    ensures { result ≡ position (waits_for number) waiting.now }
{
    waiting.iter().position(|waits| waits.number == number)
}

/// Takes the first ticket that waits for a message of this number; `None` if none does.
pub fn take_ticket(waiting: &mut Vec<Waiting>, number: u64) -> Option<u64>
    ensures ticket { result ≡ ticket_of number waiting.old.items }
    ensures others { waiting.new.items ≡ others_of number waiting.old.items }
{
    let index = index_of(waiting.as_slice(), number)?;
    Some(waiting.remove(index).ticket)
}
