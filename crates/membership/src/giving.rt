//! What a finished flush gives: the state of its creator, to those of its list who come from another view.

ghost use Rattle.std.specs.Prelude.{◌≡◌, ◌≤◌, ◌<◌, ◌+◌, [], OnOk, IfOk, IfSome, Some, length, map};
ghost use Rattle.std.specs.List.{range_with_len};
ghost use Rattle.address.specs.declared.limits.TheConstants.{STATE};
ghost use Rattle.wire_values.specs.Chunks.{IsTotal};
ghost use Rattle.wire_values.specs.declared.packet.Body.TheVariants as bodies;
ghost use Rattle.wire_values.specs.Posted.{packet};
ghost use Rattle.law_acts.specs.Given.{chunk_at, chunks_of};
ghost use Rattle.law_acts.specs.Decisions.{form_of, kept_of};
ghost use Rattle.membership.specs.HeldChunks.{chunk_count};
ghost use Rattle.step_output.specs.Outputs.{Grows};
ghost use Rattle.membership.specs.MemberStates.{is_chunked};
ghost use Rattle.membership.specs.Installs.{given_to};

use crate::{chunk_count, chunk_of};
use address::{Address, Bytes, ViewId};
use flush::Flush;
use state_transfer::Receiver;
use std::alloc::AllocError;
use step_output::{Identity, Output};
use wire_values::{Body, GivenState, State, Total};

// The state that a flush gives, whose creator comes from this view; none where all of its list do.
pub(crate) fn given_state<R: Receiver>(
    who: &Identity,
    flush: &Flush,
    view: ViewId,
    receiver: &R,
) -> Result<Option<Bytes>, AllocError>
    ensures given { IfOk result (λ g. g ≡ given_to flush.now view (R.meaning.encode receiver.now)) }
    ensures short { IfOk result (λ g. IfSome g (λ s. length s ≤ STATE)) }
{
    if flush.all_come_from(&view) {
        return Ok(None);
    }
    let mut state = Vec::new(who.alloc);
    receiver.get_state(&mut state)?;
    Ok(Some(Bytes::from_vec(state)))
}

// How a state is given, if one is: itself where it is short, else in chunks.
pub(crate) fn form_of(given: &Option<Bytes>) -> GivenState<'_>
    requires short { IfSome given.now (λ s. length s ≤ STATE) }
    ensures { result ≡ form_of given.now }
{
    match given {
        None => GivenState::Nothing,
        Some(state) => {
            let bytes = state.as_slice();
            match State::new(bytes) {
                Some(state) => GivenState::Whole(state),
                None => GivenState::Chunked(Total::new(bytes.len() as u32).unwrap()),
            }
        }
    }
}

// Whether a state goes in chunks.
pub(crate) fn is_chunked(state: &GivenState<'_>) -> bool
    ensures { result ≡ is_chunked state.now }
{
    match state {
        GivenState::Nothing => false,
        GivenState::Whole(_) => false,
        GivenState::Chunked(_) => true,
    }
}

// What is kept of a given state: all of it where it goes in chunks.
pub(crate) fn kept_of(given: Option<Bytes>) -> Option<Bytes>
    requires short { IfSome given (λ s. length s ≤ STATE) }
    ensures kept { result ≡ kept_of given }
    ensures total { IfSome result (λ s. IsTotal (length s)) }
{
    if is_chunked(&form_of(&given)) {
        given
    } else {
        None
    }
}

// Puts out so many chunks of a state, from an index on.
fn put_chunks(
    who: &Identity,
    proposal: ViewId,
    member: Address,
    state: &[u8],
    first: u8,
    count: u8,
    out: &mut Output,
) -> Result<(), AllocError>
    requires total { IsTotal (length state.now) }
    requires first { 1 ≤ first }
    requires few { first + count ≤ chunk_count (length state.now) + 1 }
    ensures { OnOk result (Grows who.now.group out.old out.new (map (λ chunk. packet who.now.address (bodies.State proposal chunk) member) (map (chunk_at state.now) (range_with_len first count))) []) }
{
    if count == 0 {
        return Ok(());
    }
    let chunk = chunk_of(state, first);
    who.put(member, Body::State { proposal, chunk }, out)?;
    put_chunks(who, proposal, member, state, first + 1, count - 1, out)
}

// Puts out all chunks of a state, in order.
pub(crate) fn put_state(
    who: &Identity,
    proposal: ViewId,
    member: Address,
    state: &[u8],
    out: &mut Output,
) -> Result<(), AllocError>
    requires { IsTotal (length state.now) }
    ensures { OnOk result (Grows who.now.group out.old out.new (map (λ chunk. packet who.now.address (bodies.State proposal chunk) member) (chunks_of state.now)) []) }
{
    let count = chunk_count(state.len());
    put_chunks(who, proposal, member, state, 1, count, out)
}
