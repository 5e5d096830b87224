//! A node, and the process that runs there.

ghost use Rattle.std.specs.Prelude.{◌≡◌, ◌++◌, ℕ, List, [], Option, None, Some, map, slice_get, slice_set, option_to_list, IfOk, IfErr, OnOk, OnErr};
ghost use Rattle.std.specs.Option.{ForSome, option_map_or};
ghost use Rattle.law_runners.specs.Systems.{Gone};
ghost use Rattle.address.specs.Refusals.{number_of};
ghost use Rattle.world_model.specs.declared.WorldEvent.{WorldEvent};
ghost use Rattle.world_model.specs.declared.WorldEvent.TheVariants as event;
ghost use Rattle.udp_runs.specs.Carrying.{DoesAt, RoundAt, why_absent, why_unstarted};
ghost use Rattle.udp_runs.specs.Calls.{Asks};
ghost use Rattle.udp_runs.specs.Machines.{GivesBack};
ghost use Rattle.udp_runs.specs.Nodes.{CannotStart, GoesOn, GoesOnAt, IsFirst, IsNext};
ghost use Rattle.udp_runs.specs.Processes.{state_text, net_of};

use crate::NodeMachine;
use crate::calls::Call;
use crate::process::{Process, member_at};
use address::limits::Refusal;
use address::{Address, Node};
use application::Application;
use std::alloc::{AllocError, Global};
use trace_props::Event;
use udp_net::{Net, NodePort, Settings};
use vsync_text::{append_event, append_refusal};

/// A node, and the process that runs there. Each call appends to a text what happened by it.
pub(crate) struct NodeState<N: Net, C: Application> {
    pub(crate) node: Node,
    // The address of the member that was started there last.
    last: Option<Address>,
    process: Option<Process<N, C>>,
}

impl<N: Net, C: Application> Drop for NodeState<N, C> {
    fn drop(self) {
        let NodeState {
            node: _,
            last: _,
            process: _,
        } = self;
    }
}

// Why nothing is done where no member runs, but this one was started last, if any was.
fn absence(last: Option<Address>) -> Refusal
    ensures { number_of result ≡ why_absent last }
{
    if last.is_some() {
        Refusal::Closed
    } else {
        Refusal::NotConnected
    }
}

impl<N: Net, C: Application> NodeState<N, C> {
    // The node of a place, where no member was started yet.
    pub(crate) fn new(place: &NodePort) -> NodeState<N, C>
        ensures { result ≡ record { node = place.now.node; last = None; process = None } }
    {
        NodeState {
            node: place.node,
            last: None,
            process: None,
        }
    }

    // The address of the next member there. Refused with 5 where one runs, and with 8 after the last incarnation.
    pub(crate) fn next_address(&self) -> Result<Address, Refusal>
        ensures ok { IfOk result (IsNext self.now) }
        ensures err { IfErr result (λ refusal. number_of refusal ≡ why_unstarted self.now) }
        ensures full { OnErr result (CannotStart self.now) }
    {
        if self.process.is_some() {
            return Err(Refusal::AlreadyConnected);
        }
        match self.last {
            None => Ok(Address::first_at(self.node)),
            Some(last) => last.next_incarnation().ok_or(Refusal::Exhausted),
        }
    }

    // Starts the member of an address there. It crashes at once where it is refused memory.
    pub(crate) fn start(
        &mut self,
        alloc: Global,
        address: Address,
        net: N,
        settings: &Settings,
        text: &mut Vec<u8>,
    ) -> Result<(), AllocError>
        ensures { (group : List ℕ) (line : ℕ) (given : Option (List (Gone N))) (states : List (NodeState N C)) (k : ℕ) → slice_get states k ≡ Some self.old → IsNext self.old address
            → IsFirst self.old.node k states → ForSome (N.log net) (λ l. l ≡ [])
            → GoesOn N.log N.failed C.meaning group (DoesAt N.log N.failed C.meaning group line self.old (event.Start self.old.node) self.new) states (slice_set states k self.new) given given text.old.items text.new.items result }
    {
        self.last = Some(address);
        append_event(text, &Event::Started(address))?;
        match member_at(alloc, address, net, settings) {
            Ok(runner) => {
                self.process = Some(Process { address, runner });
                Ok(())
            }
            Err(_) => append_event(text, &Event::Crashed(address)),
        }
    }

    // Lets the running member crash. Refused with 1 where none was started, and with 6 where none runs any more.
    pub(crate) fn crash<M: NodeMachine<Net = N>>(
        &mut self,
        machine: &mut M,
        line: u64,
        text: &mut Vec<u8>,
    ) -> Result<(), AllocError>
        ensures { (group : List ℕ) → GoesOnAt N.log N.failed C.meaning group (DoesAt N.log N.failed C.meaning group line self.old (event.Crash self.old.node) self.new) self.old self.new
            (M.gone machine.old) (M.gone machine.new) text.old.items text.new.items result }
    {
        let Some(process) = self.process.take() else {
            return append_refusal(text, line, absence(self.last).number());
        };
        let address = process.address;
        process.close(machine);
        append_event(text, &Event::Crashed(address))
    }

    // Does the call of a line at the running member, in the group of this name. Refused with 1 where none was started, and with 6 where none runs any more.
    pub(crate) fn call<M: NodeMachine<Net = N>>(
        &mut self,
        alloc: Global,
        machine: &mut M,
        group: &[u8],
        line: u64,
        call: &Call<'_>,
        text: &mut Vec<u8>,
    ) -> Result<(), AllocError>
        ensures { (asked : WorldEvent) → Asks asked self.old.node call.now → GoesOnAt N.log N.failed C.meaning group.now (DoesAt N.log N.failed C.meaning group.now line self.old asked self.new) self.old self.new
            (M.gone machine.old) (M.gone machine.new) text.old.items text.new.items result }
    {
        let Some(process) = self.process.as_mut() else {
            return append_refusal(text, line, absence(self.last).number());
        };
        if !process.call(alloc, group, line, call, text)? {
            self.close(machine);
        }
        Ok(())
    }

    // A round of the member, if one runs.
    pub(crate) fn round<M: NodeMachine<Net = N>>(
        &mut self,
        machine: &mut M,
        text: &mut Vec<u8>,
    ) -> Result<(), AllocError>
        ensures { (group : List ℕ) → GoesOnAt N.log N.failed C.meaning group (RoundAt N.log N.failed C.meaning self.old self.new) self.old self.new
            (M.gone machine.old) (M.gone machine.new) text.old.items text.new.items result }
    {
        let Some(process) = self.process.as_mut() else {
            return Ok(());
        };
        if !process.round(text)? {
            self.close(machine);
        }
        Ok(())
    }

    // Appends the line of the member, if one runs.
    pub(crate) fn append_state(&mut self, text: &mut Vec<u8>) -> Result<(), AllocError>
        ensures text { OnOk result (text.new.items ≡ text.old.items ++ option_map_or (state_text C.line_of) self.old.process []) }
        ensures err { OnErr result (text.new.items ≡ text.old.items) }
        ensures same { self.new ≡ self.old }
    {
        match self.process.as_mut() {
            Some(process) => process.append_state(text),
            None => Ok(()),
        }
    }

    // Lets the process go, if there is one.
    pub(crate) fn close<M: NodeMachine<Net = N>>(&mut self, machine: &mut M)
        ensures gone { GivesBack (M.gone machine.old) (map net_of (option_to_list self.old.process)) (M.gone machine.new) }
        ensures left { self.new ≡ record self.old { process = None } }
    {
        if let Some(process) = self.process.take() {
            process.close(machine);
        }
    }
}
