//! A running member is handed a packet, and time passes for it.

ghost use Rattle.std.specs.Prelude.{◌≡◌, ◌+◌, Option, Some, Ok, Err, OnOk, MatchOption, is_some, true, false};
ghost use Rattle.std.specs.Option.{option_map_or};
ghost use Rattle.address.specs.declared.limits.TheConstants.{WINDOW};
ghost use Rattle.wire_values.specs.Posted.{Posted};
ghost use Rattle.step_output.specs.Calm.{IsCalm};
ghost use Rattle.membership.specs.declared.stop.Stop.TheVariants as stop;
ghost use Rattle.membership.specs.MemberStates.{core_of, is_connected};
ghost use Rattle.membership.specs.Changes.{StaysAs};
ghost use Rattle.membership.specs.Doing.{Did};
ghost use Rattle.member.specs.Running.{IsRunning};
ghost use Rattle.member.specs.Hearing.{FollowsRule, is_unreadable_by};
ghost use Rattle.member.specs.Members.{came_in};
ghost use Rattle.member.specs.Doing.{Ticks, ignores_packet};
ghost use Rattle.step_output.specs.Steps.{who_of};
ghost use Rattle.membership.specs.InSteps.{in_step};

use crate::rules::hear;
use member_rules::{ask_again, flush_again, tick_in_view};
use membership::{MemberState, Stop};
use state_transfer::Receiver;
use std::alloc::AllocError;
use step_output::{Identity, Output};
use wire_values::Packet;

// Whether it is handed a packet: one of its group, to its address, from another, while it is connected.
fn is_handed<R: Receiver>(
    member_state: &MemberState<R>,
    who: &Identity,
    packet: &Packet<'_>,
) -> bool
    ensures { result ≡ is_some (came_in (record { address = who.now.address; group = who.now.group; member_state = Some member_state.now }) (Ok packet.now)) }
{
    member_state.is_connected() && who.is_for(packet)
}

// Takes a packet, if it is handed it.
pub(crate) fn take_packet<R: Receiver>(
    member_state: &mut MemberState<R>,
    who: &Identity,
    packet: &Packet<'_>,
    out: &mut Output,
) -> Result<(), Stop>
    requires running { IsRunning (who_of who.now) member_state.old }
    ensures running { OnOk result (IsRunning (who_of who.now) member_state.new) }
    ensures does { OnOk result (MatchOption (came_in (record { address = who.now.address; group = who.now.group; member_state = Some member_state.old }) (Ok packet.now)) (StaysAs (in_step member_state.old out.old) (in_step member_state.new out.new)) (λ m. FollowsRule R.meaning (who_of who.now) m.source m.body (in_step member_state.old out.old) (in_step member_state.new out.new))) }
    ensures did { OnOk result (Did R.meaning (came_in (record { address = who.now.address; group = who.now.group; member_state = Some member_state.old }) (Ok packet.now)) (who_of who.now) (in_step member_state.old out.old) (in_step member_state.new out.new)) }
    ensures connected { OnOk result (is_connected member_state.new ≡ is_connected member_state.old) }
    ensures calm { OnOk result (IsCalm (WINDOW + 3) out.old out.new) }
    ensures unreadable { result ≡ Err stop.Unreadable → option_map_or (is_unreadable_by R.meaning who.now.address member_state.old) (came_in (record { address = who.now.address; group = who.now.group; member_state = Some member_state.old }) (Ok packet.now)) false ≡ true }
    ensures ignored { ignores_packet who.now.address (came_in (record { address = who.now.address; group = who.now.group; member_state = Some member_state.old }) (Ok packet.now)) member_state.old ≡ true → (result ≡ Ok tt) × StaysAs (in_step member_state.old out.old) (in_step member_state.new out.new) }
{
    if is_handed(member_state, who, packet) {
        hear(member_state, who, packet.source, &packet.body, out)
    } else {
        Ok(())
    }
}

// Time passes for it.
pub(crate) fn pass_time<R: Receiver>(
    member_state: &MemberState<R>,
    who: &Identity,
    out: &mut Output,
) -> Result<(), AllocError>
    requires running { IsRunning (who_of who.now) member_state.now }
    ensures does { OnOk result (Ticks (who_of who.now) (in_step member_state.now out.old) out.new) }
    ensures did { OnOk result ((came : Option Posted) → Did R.meaning came (who_of who.now) (in_step member_state.now out.old) (in_step member_state.now out.new)) }
    ensures calm { OnOk result (IsCalm 0 out.old out.new) }
    ensures ignored { is_connected member_state.now ≡ false → (result ≡ Ok tt) × (out.new ≡ out.old) }
{
    if !member_state.is_connected() {
        return Ok(());
    }
    if member_state.view_state.is_none() {
        ask_again(member_state, who, out)
    } else if member_state.promise.is_installed() {
        tick_in_view(member_state, who, out)
    } else {
        flush_again(member_state, who, out)
    }
}
