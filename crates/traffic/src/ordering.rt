//! The rules of the coordinator of a view: what it takes to be ordered, what it orders, and what is stable.

ghost use Rattle.std.specs.Prelude.{◌≡◌, ◌+◌, ◌<◌, ◌≤◌, Option, Some, None, true, false, [], length, map, OnOk, IfOk, MatchBool, MatchOption};
ghost use Rattle.std.specs.Option.{option_map};
ghost use Rattle.address.specs.Ids.{same_address};
ghost use Rattle.view.specs.Members.{stands_in};
ghost use Rattle.wire_values.specs.declared.packet.Body.TheVariants as bodies;
ghost use Rattle.wire_values.specs.Posted.{Posted, packet};
ghost use Rattle.sequencer.specs.Queues.{next_ordered};
ghost use Rattle.law_acts.specs.Acts.{others_of};
ghost use Rattle.step_output.specs.Outputs.{Grows};
ghost use Rattle.traffic.specs.ViewStates.{waiting_of};
ghost use Rattle.traffic.specs.Coordinators.{IsCoordinator, ServesOne, acknowledged, holding, queued};
ghost use Rattle.traffic.specs.Goings.{CoordinatorGoes};
ghost use Rattle.traffic.specs.Turns.{TurnsNext, Ordering, IsSettled, IsFew, OrdersAll};
ghost use Rattle.step_output.specs.Steps.{who_of};
ghost use Rattle.traffic.specs.InViews.{in_view};

use crate::Coordinator;
use crate::delivering::deliver_kept;
use address::Address;
use nak_stream::Entry;
use state_transfer::Receiver;
use std::alloc::AllocError;
use step_output::{Identity, Output};
use wire_values::{Body, Number, Payload};

impl Coordinator {
    // Takes a message of a member among those that are to be ordered, where it is new.
    fn queue(
        &mut self,
        sender: &Address,
        number: Number,
        payload: &Payload<'_>,
    ) -> Result<(), AllocError>
        ensures { OnOk result (self.new ≡ queued sender.now number payload.now self.old) }
    {
        let _taken = self.orderer.forward(sender, number, payload)?;
        Ok(())
    }

    // Takes the next message out of its queue, where one may be ordered, and delivers it here. Answers its number in the order, and the message.
    fn serve_one<R: Receiver>(
        &mut self,
        who: &Identity,
        receiver: &mut R,
        out: &mut Output,
    ) -> Result<Option<(Number, Entry)>, AllocError>
        ensures next { IfOk result (λ next. next ≡ option_map (λ e. (self.old.orderer.ordered + 1, e)) (next_ordered self.old.window.stable self.old.orderer)) }
        ensures does { IfOk result (λ next. MatchOption next
            ((self.new ≡ self.old) × (receiver.new ≡ receiver.old) × (out.new ≡ out.old))
            (λ n. ServesOne R.meaning (who_of who.now) n (in_view self.old receiver.old out.old) (in_view self.new receiver.new out.new))) }
    {
        let Some((place, entry)) = self.orderer.ready(self.window.stable()) else {
            return Ok(None);
        };
        deliver_kept(
            who,
            self.view.id(),
            &entry,
            &mut self.forwards,
            receiver,
            out,
        )?;
        Ok(Some((place, entry)))
    }

    // Holds a message at its number, as delivered here.
    fn hold(&mut self, place: Number, entry: Entry)
        ensures { self.new ≡ holding (place, entry) self.old }
    {
        let _new = self.window.hold(place.get(), entry);
        let _held = self.window.deliver_next();
    }

    // Takes an acknowledgement, and lets go of what is stable.
    fn acknowledge(&mut self, member: &Address, count: u64)
        ensures { self.new ≡ acknowledged member.now count self.old }
    {
        self.acks.note(member, count);
        self.window.collect(self.acks.stable());
    }

    // Puts out the ORDER of a message, to each other member by rank.
    fn announce(
        &self,
        who: &Identity,
        place: Number,
        entry: &Entry,
        out: &mut Output,
    ) -> Result<(), AllocError>
        ensures { OnOk result (Grows who.now.group out.old out.new (map (packet who.now.address (bodies.Order self.now.view.id place entry.now)) (others_of who.now.address self.now.view.members)) []) }
    {
        let members = self.view.members().as_slice();
        let view = self.view.id();
        for member in members {
            if *member != who.address {
                let entry = entry.lent();
                who.put(*member, Body::Order { view, place, entry }, out)?;
            }
        }
        Ok(())
    }

    // Orders the next message, where one may be ordered: it is delivered here, its ORDER goes to the others, and what is stable is let go of.
    // Answers whether there was one.
    fn order_next<R: Receiver>(
        &mut self,
        who: &Identity,
        receiver: &mut R,
        out: &mut Output,
    ) -> Result<bool, AllocError>
        requires coordinator { IsCoordinator who.now.address self.old }
        requires settled { IsSettled who.now.address self.old }
        ensures goes { OnOk result ((came : Option Posted) → CoordinatorGoes R.meaning came (who_of who.now) (in_view self.old receiver.old out.old) (in_view self.new receiver.new out.new)) }
        ensures does { IfOk result (λ more. TurnsNext R.meaning (who_of who.now) more (in_view self.old receiver.old out.old) (in_view self.new receiver.new out.new)) }
        ensures settled { OnOk result (IsSettled who.now.address self.new) }
        ensures fewer { IfOk result (λ more. MatchBool more
            (length (waiting_of self.new.orderer.queues) < length (waiting_of self.old.orderer.queues))
            (next_ordered self.new.window.stable self.new.orderer ≡ None)) }
    {
        self.window.kept();
        let _members = self.view.members();
        let _rest = self.forwards.rest();
        let next = self.serve_one(who, receiver, out)?;
        match next {
            None => Ok(false),
            Some(placed) => {
                self.announce(who, placed.0, &placed.1, out)?;
                self.hold(placed.0, placed.1);
                let reached = self.window.delivered();
                self.acknowledge(&who.address, reached);
                Ok(true)
            }
        }
    }

    /// Orders all that may be ordered, one message after another: each is delivered here, and its ORDER goes to each other member by rank. After an error for want of
    /// memory nothing is said of the member.
    pub fn order<R: Receiver>(
        &mut self,
        who: &Identity,
        receiver: &mut R,
        out: &mut Output,
    ) -> Result<(), AllocError>
        requires coordinator { IsCoordinator who.now.address self.old }
        requires settled { IsSettled who.now.address self.old }
        ensures goes { OnOk result ((came : Option Posted) → CoordinatorGoes R.meaning came (who_of who.now) (in_view self.old receiver.old out.old) (in_view self.new receiver.new out.new)) }
        ensures done { OnOk result (next_ordered self.new.window.stable self.new.orderer ≡ None) }
        ensures orders { OnOk result (Ordering R.meaning (who_of who.now) (in_view self.old receiver.old out.old) (in_view self.new receiver.new out.new)) }
        ensures settled { OnOk result (IsSettled who.now.address self.new) }
        ensures few { OnOk result (IsFew out.old out.new) }
    {
        self.window.kept();
        let _members = self.view.members();
        let _rest = self.forwards.rest();
        loop {
            if !self.order_next(who, receiver, out)? {
                return Ok(());
            }
        }
    }

    /// A member's FORWARD: its message waits where it is new and at most `OUTSTANDING` past the sender's ordered ones, and all is ordered that may be. After an error
    /// for want of memory nothing is said of the member.
    pub fn forward<R: Receiver>(
        &mut self,
        who: &Identity,
        source: &Address,
        number: Number,
        payload: &Payload<'_>,
        receiver: &mut R,
        out: &mut Output,
    ) -> Result<(), AllocError>
        requires coordinator { IsCoordinator who.now.address self.old }
        requires settled { IsSettled who.now.address self.old }
        requires other { same_address source.now who.now.address ≡ false }
        ensures goes { OnOk result (CoordinatorGoes R.meaning (Some (packet source.now (bodies.Forward self.old.view.id number payload.now) who.now.address)) (who_of who.now) (in_view self.old receiver.old out.old) (in_view self.new receiver.new out.new)) }
        ensures done { OnOk result (next_ordered self.new.window.stable self.new.orderer ≡ None) }
        ensures orders { OnOk result (Ordering R.meaning (who_of who.now) (in_view (queued source.now number payload.now self.old) receiver.old out.old) (in_view self.new receiver.new out.new)) }
        ensures settled { OnOk result (IsSettled who.now.address self.new) }
        ensures few { OnOk result (IsFew out.old out.new) }
    {
        self.queue(source, number, payload)?;
        self.order(who, receiver, out)?;
        Ok(())
    }

    /// A member's ACK of no more than was delivered here: what is stable by it is let go of, and all is ordered that may be. After an error for want of memory
    /// nothing is said of the member.
    pub fn ack<R: Receiver>(
        &mut self,
        who: &Identity,
        source: &Address,
        count: u64,
        receiver: &mut R,
        out: &mut Output,
    ) -> Result<(), AllocError>
        requires coordinator { IsCoordinator who.now.address self.old }
        requires settled { IsSettled who.now.address self.old }
        requires other { same_address source.now who.now.address ≡ false }
        requires member { stands_in source.now self.old.view.members ≡ true }
        requires delivered { count ≤ self.old.window.delivered }
        ensures goes { OnOk result (CoordinatorGoes R.meaning (Some (packet source.now (bodies.Ack self.old.view.id count) who.now.address)) (who_of who.now) (in_view self.old receiver.old out.old) (in_view self.new receiver.new out.new)) }
        ensures orders { OnOk result (OrdersAll R.meaning (who_of who.now) (in_view (acknowledged source.now count self.old) receiver.old out.old) (in_view self.new receiver.new out.new)) }
        ensures settled { OnOk result (IsSettled who.now.address self.new) }
        ensures few { OnOk result (IsFew out.old out.new) }
    {
        self.acknowledge(source, count);
        self.order(who, receiver, out)?;
        Ok(())
    }
}
