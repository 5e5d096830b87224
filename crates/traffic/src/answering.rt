//! The coordinator answers a NAK, and puts out on a tick how far its order has come.

ghost use Rattle.std.specs.Prelude.{◌≡◌, ◌+◌, ◌-◌, ◌<◌, [], map, OnOk};
ghost use Rattle.wire_values.specs.declared.packet.Body.TheVariants as bodies;
ghost use Rattle.wire_values.specs.Posted.{packet};
ghost use Rattle.law_acts.specs.Acts.{others_of};
ghost use Rattle.step_output.specs.Outputs.{Grows};
ghost use Rattle.traffic.specs.Takes.{orders_held, progress_of};

use crate::Coordinator;
use address::Address;
use address::limits::WINDOW;
use std::alloc::AllocError;
use step_output::{Identity, Output};
use wire_values::{Body, Count, Missing, Number, Progress};

impl Coordinator {
    // Puts out the ORDER of a number to a member again, where a message is held there.
    fn resend(
        &self,
        who: &Identity,
        destination: &Address,
        g: u64,
        out: &mut Output,
    ) -> Result<(), AllocError>
        ensures { OnOk result (Grows who.now.group out.old out.new (orders_held who.now.address self.now.view destination.now self.now.window.held g 1) []) }
    {
        self.window.kept();
        let Some(entry) = self.window.entry(g) else {
            return Ok(());
        };
        let Some(place) = Number::new(g) else {
            unreachable!();
        };
        let view = self.view.id();
        let entry = entry.lent();
        who.put(*destination, Body::Order { view, place, entry }, out)
    }

    /// A NAK: the ORDER of each of these numbers at which a message is held goes to the member that asks, by rising numbers. After an error for want of
    /// memory nothing is said of the output.
    pub fn nak(
        &self,
        who: &Identity,
        source: &Address,
        missing: Missing,
        out: &mut Output,
    ) -> Result<(), AllocError>
        ensures { OnOk result (Grows who.now.group out.old out.new (orders_held who.now.address self.now.view source.now self.now.window.held missing.first (missing.last + 1 - missing.first)) []) }
    {
        self.window.kept();
        let low = missing.first().get().max(self.window.stable() + 1);
        let high = missing.last().get().min(self.window.stable() + WINDOW);
        let mut g = low;
        while g <= high {
            self.resend(who, source, g, out)?;
            g += 1;
        }
        Ok(())
    }

    // How far the order has come.
    fn progress(&self) -> Progress
        ensures { result ≡ progress_of self.now.window }
    {
        self.window.kept();
        let Some(highest) = Count::new(self.window.delivered()) else {
            unreachable!();
        };
        let Some(stable) = Count::new(self.window.stable()) else {
            unreachable!();
        };
        let Some(progress) = Progress::new(highest, stable) else {
            unreachable!();
        };
        progress
    }

    /// A tick: a STATUS goes to each other member by rank. After an error for want of memory nothing is said of the output.
    pub fn tick(&self, who: &Identity, out: &mut Output) -> Result<(), AllocError>
        ensures { OnOk result (Grows who.now.group out.old out.new (map (packet who.now.address (bodies.Status self.now.view.id (progress_of self.now.window))) (others_of who.now.address self.now.view.members)) []) }
    {
        let members = self.view.members().as_slice();
        let view = self.view.id();
        let progress = self.progress();
        for member in members {
            if *member != who.address {
                who.put(*member, Body::Status { view, progress }, out)?;
            }
        }
        Ok(())
    }
}
