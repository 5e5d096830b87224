//! A member takes the reports for its own proposal, and finishes its flush when all have reported.

ghost use Rattle.std.specs.Prelude.{◌≡◌, OnOk, false};
ghost use Rattle.std.specs.Option.{option_map, option_map_or};
ghost use Rattle.membership.specs.MemberStates.{IsMemberState, is_complete, is_expected, recording};
ghost use Rattle.membership.specs.Changes.{GoesOn, TakesReport};
ghost use Rattle.step_output.specs.Steps.{who_of};
ghost use Rattle.membership.specs.InSteps.{in_step};

use crate::MemberState;
use address::{Address, ViewId};
use flush::Flush;
use state_transfer::Receiver;
use std::alloc::AllocError;
use step_output::{Identity, Output};
use wire_values::Report;

// Records a report for the proposal of an own flush, where it is awaited.
fn record(
    flush: &mut Option<Flush>,
    source: Address,
    proposal: ViewId,
    report: &Report<'_>,
) -> Result<(), AllocError>
    ensures { OnOk result (flush.new ≡ option_map (recording source proposal report.now) flush.old) }
{
    if let Some(flush) = flush {
        if flush.proposal() == proposal {
            let _ = flush.report(source, report)?;
        }
    }
    Ok(())
}

/// Whether all of the list of a flush have reported. Takes no memory.
pub fn is_complete(flush: &Flush) -> bool
    ensures { result ≡ is_complete flush.now }
{
    for member in flush.members().as_slice() {
        if !flush.has_reported(member) {
            return false;
        }
    }
    true
}

impl<R: Receiver> MemberState<R> {
    /// Whether a report of this address is awaited for its own proposal. Takes no memory.
    pub fn expects(&self, source: &Address, proposal: ViewId) -> bool
        ensures { result ≡ option_map_or (is_expected source.now proposal) self.now.flush false }
    {
        match &self.flush {
            None => false,
            Some(flush) => {
                flush.proposal() == proposal
                    && flush.members().contains(source)
                    && !flush.has_reported(source)
            }
        }
    }

    // Goes into its own proposal, if all have reported, and begins what is due then.
    pub(crate) fn go_on(&mut self, who: &Identity, out: &mut Output) -> Result<(), AllocError>
        requires member_state { IsMemberState (who_of who.now) self.old }
        ensures member_state { OnOk result (IsMemberState (who_of who.now) self.new) }
        ensures goes_on { OnOk result (GoesOn R.meaning (who_of who.now) (in_step self.old out.old) (in_step self.new out.new)) }
    {
        match &self.flush {
            Some(flush) if is_complete(flush) => {}
            _ => return Ok(()),
        }
        let flush = self.flush.take().unwrap();
        let view_state = self.view_state.take().unwrap();
        flush.kept();
        self.settle(who, &flush, &view_state, out)?;
        self.propose(who, out)
    }

    /// Takes a report for its own proposal. The last of them finishes the flush: it is delivered what it lacks of its own view's cut, goes into the
    /// view, and says to each other how to; then it begins what is due. After an error for want of memory nothing is said of the member.
    pub fn take_report(
        &mut self,
        who: &Identity,
        source: Address,
        proposal: ViewId,
        report: &Report<'_>,
        out: &mut Output,
    ) -> Result<(), AllocError>
        requires member_state { IsMemberState (who_of who.now) self.old }
        ensures member_state { OnOk result (IsMemberState (who_of who.now) self.new) }
        ensures takes { OnOk result (TakesReport R.meaning (who_of who.now) source proposal report.now (in_step self.old out.old) (in_step self.new out.new)) }
    {
        record(&mut self.flush, source, proposal, report)?;
        self.go_on(who, out)
    }
}
