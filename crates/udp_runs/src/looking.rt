//! What whoever looks after a member sees of it that runs by itself.

ghost use Rattle.std.specs.Prelude.{◌≡◌};
ghost use Rattle.udp_runs.specs.Said.{AreSame};

use crate::lone::LoneNode;
use crate::sending::few_in;
use crate::{NodeMachine, NodeStatus};
use application::Application;
use udp_net::Net;

impl<'a, N: Net, C: Application> LoneNode<'a, N, C> {
    // Tells the machine what whoever looks after it should know, and shows it how it is.
    pub(crate) fn look<M: NodeMachine>(&mut self, machine: &mut M)
        ensures same { (self.new.member ≡ self.old.member) × (self.new.teller.voice ≡ self.old.teller.voice)
            × AreSame self.old.once self.old.outbox self.old.teller.unsaid self.new.once self.new.outbox self.new.teller.unsaid }
        ensures gone { M.gone machine.new ≡ M.gone machine.old }
    {
        if let Some(notice) = self.watch.take_notice() {
            machine.notice(notice);
        }
        if self.round == 0 {
            return;
        }
        let is_blocked = self.member.channel_ref().is_blocked();
        if self.watch.pass(self.time, is_blocked) {
            self.teller.say_blocked();
        }
        if self.is_unsent | self.outbox.has_line() {
            // Lines wait since its view has too few members.
            if let Some(standing) = few_in(self.member.channel_ref(), self.manner.quorum) {
                self.watch.wait_for_more(standing.view, standing.members);
            }
        }
        if self.watch.shows(self.time) {
            self.show(machine);
        }
    }

    // How it stands.
    pub(crate) fn status(&self) -> NodeStatus {
        let channel = self.member.channel_ref();
        NodeStatus {
            address: channel.address(),
            view: match channel.view() {
                Some(view) => Some(view.id()),
                None => None,
            },
            blocked: self.watch.blocked(self.time),
            outstanding: self.teller.unsaid.outstanding(),
            stable: channel.stable(),
            strange: self.member.net_ref().strange(),
        }
    }

    // Shows the machine how it stands.
    fn show<M: NodeMachine>(&self, machine: &mut M)
        ensures gone { M.gone machine.new ≡ M.gone machine.old }
    {
        let status = self.status();
        match self.member.channel_ref().view() {
            Some(view) => machine.show(&status, view.members().as_slice()),
            None => machine.show(&status, &[]),
        }
    }
}
