//! The rules of a member of a view other than its coordinator: what it takes, what it asks for, and what it sends.

ghost use Rattle.std.specs.Prelude.{◌≡◌, ◌+◌, ◌-◌, ◌<◌, ◌≤◌, ◌||◌, map, length, Option, Some, None, true, false, [], ◌∷◌, ◌++◌, OnOk, IfOk, MatchOption};
ghost use Rattle.wire_values.specs.declared.packet.Body.TheVariants as bodies;
ghost use Rattle.address.specs.Ids.{same_address};
ghost use Rattle.wire_values.specs.Values.{held_at};
ghost use Rattle.wire_values.specs.Posted.{Posted, packet};
ghost use Rattle.nak_stream.specs.Windows.{offers, IsLeastGap, IsGreatestGap};
ghost use Rattle.step_output.specs.Outputs.{Grows};
ghost use Rattle.address.specs.declared.limits.TheConstants.{PAYLOAD, GREATEST_NUMBER};
ghost use Rattle.traffic.specs.Goings.{FollowerGoes, sending};
ghost use Rattle.traffic.specs.Turns.{IsFew};
ghost use Rattle.traffic.specs.Followers.{order_packet, DeliversOne, collected_to, held_too};
ghost use Rattle.traffic.specs.Takes.{DeliversHeld, TakesStatus, forward_of, ack_of, follower_pushing, SendsForward, IsComplete, AsksUpTo, AnswersOrder, TakesOrder};
ghost use Rattle.trace_props.specs.declared.event.Event.TheVariants.{Sent};
ghost use Rattle.sequencer.specs.Forwards.{push_refusal};
ghost use Rattle.step_output.specs.Steps.{who_of};
ghost use Rattle.traffic.specs.InViews.{in_view};

use crate::Follower;
use crate::delivering::deliver_kept;
use crate::sending::say;
use address::limits::WINDOW;
use nak_stream::OwnedPayload;
use sequencer::Forward;
use state_transfer::Receiver;
use std::alloc::AllocError;
use step_output::{Identity, Output};
use wire_values::{Body, Count, Entry as LentEntry, Missing, Number, Payload, Progress};

impl Follower {
    // Delivers the next message, where it is held. Answers whether it is.
    fn deliver_one<R: Receiver>(
        &mut self,
        who: &Identity,
        receiver: &mut R,
        out: &mut Output,
    ) -> Result<bool, AllocError>
        ensures does { IfOk result (λ did_deliver. MatchOption (held_at (self.old.window.delivered + 1) self.old.window.held)
            ((did_deliver ≡ false) × (self.new ≡ self.old) × (receiver.new ≡ receiver.old) × (out.new ≡ out.old))
            (λ e. (did_deliver ≡ true) × DeliversOne R.meaning (who_of who.now) e (in_view self.old receiver.old out.old) (in_view self.new receiver.new out.new))) }
    {
        if !self.window.deliver_next() {
            return Ok(false);
        }
        let Some(entry) = self.window.entry(self.window.delivered()) else {
            unreachable!();
        };
        deliver_kept(
            who,
            self.view.id(),
            entry,
            &mut self.forwards,
            receiver,
            out,
        )?;
        Ok(true)
    }

    // Lets go of what is stable because a number so far ahead was ordered.
    fn collect_below(&mut self, place: Number)
        ensures { self.new ≡ collected_to (place - WINDOW) self.old }
    {
        self.window.collect(place.get().saturating_sub(WINDOW));
    }

    // Holds an entry at its number, where that is new and within reach. Answers whether it is.
    fn hold(&mut self, place: Number, entry: &LentEntry<'_>) -> Result<bool, AllocError>
        ensures answer { IfOk result (λ new. new ≡ offers place self.old.window) }
        ensures now { OnOk result (self.new ≡ held_too place entry.now self.old) }
    {
        self.window.accept(place.get(), entry)
    }

    // Delivers all that is held in turn.
    fn deliver_all<R: Receiver>(
        &mut self,
        who: &Identity,
        receiver: &mut R,
        out: &mut Output,
    ) -> Result<(), AllocError>
        requires other { same_address who.now.address self.old.view.id.creator ≡ false }
        ensures goes { OnOk result ((came : Option Posted) → FollowerGoes R.meaning came (who_of who.now) (in_view self.old receiver.old out.old) (in_view self.new receiver.new out.new)) }
        ensures done { OnOk result (held_at (self.new.window.delivered + 1) self.new.window.held ≡ None) }
        ensures delivers { OnOk result (DeliversHeld R.meaning (who_of who.now) (in_view self.old receiver.old out.old) (in_view self.new receiver.new out.new)) }
        ensures few { OnOk result (IsFew out.old out.new) }
    {
        self.window.kept();
        loop {
            self.window.kept();
            if !self.deliver_one(who, receiver, out)? {
                return Ok(());
            }
        }
    }

    // Puts out an ACK of how many were delivered here, to the coordinator.
    fn acknowledge(&self, who: &Identity, out: &mut Output) -> Result<(), AllocError>
        ensures { OnOk result (Grows who.now.group out.old out.new (packet who.now.address (bodies.Ack self.now.view.id self.now.window.delivered) self.now.view.id.creator ∷ []) []) }
    {
        self.window.kept();
        let Some(delivered) = Count::new(self.window.delivered()) else {
            unreachable!();
        };
        let view = self.view.id();
        who.put(self.view.first(), Body::Ack { view, delivered }, out)
    }

    // The least and the greatest number that is missing, up to the highest.
    fn missing(&self, highest: u64) -> Option<Missing>
        requires { highest ≤ GREATEST_NUMBER }
        ensures least { MatchOption result (IsComplete self.now.window highest) (λ m. IsLeastGap self.now.window highest m.first) }
        ensures greatest { MatchOption result (IsComplete self.now.window highest) (λ m. IsGreatestGap self.now.window highest m.last) }
    {
        let ends = self.window.gaps(highest)?;
        let Some(first) = Number::new(ends.0) else {
            unreachable!();
        };
        let Some(last) = Number::new(ends.1) else {
            unreachable!();
        };
        let Some(missing) = Missing::new(first, last) else {
            unreachable!();
        };
        Some(missing)
    }

    // Puts out a NAK of what is missing up to the highest, where something is.
    fn ask_up_to(&self, who: &Identity, highest: u64, out: &mut Output) -> Result<(), AllocError>
        requires { highest ≤ GREATEST_NUMBER }
        ensures { OnOk result (AsksUpTo (who_of who.now) highest self.now out.old out.new) }
    {
        let view = self.view.id();
        match self.missing(highest) {
            None => Ok(()),
            Some(missing) => who.put(self.view.first(), Body::Nak { view, missing }, out),
        }
    }

    // Answers an ORDER that was taken: by an ACK where messages were delivered by it, else by a NAK where it was new and some are missing.
    fn answer(
        &self,
        who: &Identity,
        before: u64,
        new: bool,
        place: Number,
        out: &mut Output,
    ) -> Result<(), AllocError>
        ensures { OnOk result (AnswersOrder (who_of who.now) before new place self.now out.old out.new) }
    {
        if before < self.window.delivered() {
            self.acknowledge(who, out)?;
            return Ok(());
        }
        if new {
            self.ask_up_to(who, place.get(), out)?;
        }
        Ok(())
    }

    /// An ORDER of the coordinator: what lies `WINDOW` below it is stable, it is held where it is new, and what is held in turn is delivered. An ACK is put out
    /// where messages were delivered, else a NAK where it was new. After an error for want of memory nothing is said of the member.
    pub fn order<R: Receiver>(
        &mut self,
        who: &Identity,
        place: Number,
        entry: &LentEntry<'_>,
        receiver: &mut R,
        out: &mut Output,
    ) -> Result<(), AllocError>
        requires other { same_address who.now.address self.old.view.id.creator ≡ false }
        ensures goes { OnOk result (FollowerGoes R.meaning (order_packet who.now.address self.old.view place entry.now) (who_of who.now) (in_view self.old receiver.old out.old) (in_view self.new receiver.new out.new)) }
        ensures takes { OnOk result (TakesOrder R.meaning (who_of who.now) place entry.now (in_view self.old receiver.old out.old) (in_view self.new receiver.new out.new)) }
        ensures few { OnOk result (IsFew out.old out.new) }
    {
        let before = self.window.delivered();
        self.collect_below(place);
        let new = self.hold(place, entry)?;
        self.deliver_all(who, receiver, out)?;
        self.answer(who, before, new, place, out)?;
        Ok(())
    }

    /// A STATUS of the coordinator: what is stable is let go of, and a NAK is put out where something is missing. After an error for want of memory nothing is said of
    /// the output.
    pub fn status(
        &mut self,
        who: &Identity,
        progress: Progress,
        out: &mut Output,
    ) -> Result<(), AllocError>
        ensures { OnOk result (TakesStatus (who_of who.now) progress self.old out.old self.new out.new) }
    {
        self.window.collect(progress.stable().get());
        self.ask_up_to(who, progress.highest().get(), out)
    }

    /// A tick: its outstanding messages go to the coordinator again, by number, and then an ACK. After an error for want of memory nothing is said of the output.
    pub fn tick(&self, who: &Identity, out: &mut Output) -> Result<(), AllocError>
        ensures { OnOk result (Grows who.now.group out.old out.new (map (forward_of who.now.address self.now.view) self.now.forwards.rest ++ ack_of who.now.address self.now ∷ []) []) }
    {
        self.forward_all(who, self.forwards.rest(), out)?;
        self.acknowledge(who, out)
    }

    // Puts out the FORWARD of one of its messages.
    fn forward_one(
        &self,
        who: &Identity,
        forward: &Forward,
        out: &mut Output,
    ) -> Result<(), AllocError>
        ensures { OnOk result (Grows who.now.group out.old out.new (forward_of who.now.address self.now.view forward.now ∷ []) []) }
    {
        let view = self.view.id();
        let number = forward.number;
        let payload = forward.payload.lent();
        who.put(
            self.view.first(),
            Body::Forward {
                view,
                number,
                payload,
            },
            out,
        )
    }

    // Puts out the FORWARDs of some of its messages, in turn.
    fn forward_all(
        &self,
        who: &Identity,
        rest: &[Forward],
        out: &mut Output,
    ) -> Result<(), AllocError>
        ensures { OnOk result (Grows who.now.group out.old out.new (map (forward_of who.now.address self.now.view) rest.now) []) }
    {
        match rest.split_first() {
            None => Ok(()),
            Some((first, others)) => {
                self.forward_one(who, first, out)?;
                self.forward_all(who, others, out)
            }
        }
    }

    /// Sends a message: it is outstanding, and its FORWARD goes to the coordinator. After an error for want of memory nothing is said of the member.
    pub fn send(
        &mut self,
        who: &Identity,
        payload: &Payload<'_>,
        out: &mut Output,
    ) -> Result<(), AllocError>
        requires free { push_refusal self.old.forwards ≡ None }
        ensures now { OnOk result (self.new ≡ follower_pushing payload.now self.old) }
        ensures short { length payload.now ≤ PAYLOAD }
        ensures sends { OnOk result (SendsForward (who_of who.now) payload.now self.old out.old out.new) }
    {
        let body = payload.as_slice();
        let kept = OwnedPayload::copy_of(who.alloc, payload)?;
        let view = self.view.id();
        let number = say(who, view, kept, &mut self.forwards, out)?;
        let Some(payload) = Payload::new(body) else {
            unreachable!();
        };
        who.put(
            self.view.first(),
            Body::Forward {
                view,
                number,
                payload,
            },
            out,
        )?;
        Ok(())
    }
}
