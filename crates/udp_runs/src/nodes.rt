//! The nodes of the settings, in one process.

ghost use Rattle.std.specs.Prelude.{◌≡◌, ◌++◌, ℕ, ◌<◌, List, false, length, nat_eq, take, map, vec_len, slice_get, IfErr, IfNone, IfOk, IfSome, OnOk, OnErr};
ghost use Rattle.std.specs.List.{concat, list_any};
ghost use Rattle.std.specs.List.Sorted.{IsPermutation, IsNonDecreasingBy};
ghost use Rattle.std.specs.Option.{IsSomeAnd};
ghost use Rattle.world_model.specs.declared.WorldEvent.{WorldEvent};
ghost use Rattle.world_model.specs.declared.WorldEvent.TheVariants as event;
ghost use Rattle.udp_runs.specs.Carrying.{AreListed, DoesLine, RoundOf, RoundsOf, line_of_event, place_of};
ghost use Rattle.udp_runs.specs.Calls.{Asks};
ghost use Rattle.udp_runs.specs.Machines.{GivesBack};
ghost use Rattle.udp_runs.specs.Nodes.{AreUnused, GoesOn, IsFirst, IsNext, processes_in};
ghost use Rattle.udp_runs.specs.Scripts.{StopsAt, IsNoNet, start_line};
ghost use Rattle.udp_runs.specs.Processes.{net_of, state_text};

use crate::NodeMachine;
use crate::calls::{Asked, Call, asked_by};
use crate::ends::Stop;
use crate::node_state::NodeState;
use address::limits::Refusal;
use address::{Address, Node};
use application::Application;
use std::alloc::{AllocError, Global};
use udp_net::{BindError, Net, NodePort, Settings};
use vsync_text::{UdpEvent, UdpLine, append_refusal};

/// The nodes of the settings, by number.
#[derive(Drop)]
pub(crate) struct Nodes<N: Net, C: Application> {
    alloc: Global,
    node_states: Vec<NodeState<N, C>>,
}

// The nodes that settings list, by number.
fn sorted(alloc: Global, settings: &Settings) -> Result<Vec<NodePort>, AllocError>
    ensures all { IfOk result (λ places. IsPermutation settings.now.nodes places.items) }
    ensures by_number { IfOk result (λ places. IsNonDecreasingBy place_of places.items) }
{
    let mut places = Vec::from_slice(alloc, settings.nodes())?;
    places.sort_by_key(
        |place: &NodePort| -> Node
            ensures { result ≡ place.now.node }
        { place.node },
    )?;
    Ok(places)
}

impl<N: Net, C: Application> Nodes<N, C> {
    // The nodes that settings list; no member runs.
    pub(crate) fn new(alloc: Global, settings: &Settings) -> Result<Nodes<N, C>, AllocError>
        ensures unused { IfOk result (λ nodes. AreUnused nodes.node_states.items) }
        ensures listed { IfOk result (λ nodes. AreListed settings.now.nodes nodes.node_states.items) }
    {
        let places = sorted(alloc, settings)?;
        let mut node_states = Vec::with_capacity(alloc, settings.nodes().len())?;
        for place in places.as_slice() {
            node_states.push(NodeState::new(place))?;
        }
        Ok(Nodes { alloc, node_states })
    }

    // Does what a line says, and appends what happened.
    pub(crate) fn carry_out<M: NodeMachine<Net = N>>(
        &mut self,
        settings: &Settings,
        machine: &mut M,
        line: &UdpLine,
        text: &mut Vec<u8>,
    ) -> Result<(), Stop>
        ensures goes { GoesOn N.log N.failed C.meaning settings.now.group (DoesLine N.log N.failed C.meaning settings.now.group self.old.node_states.items line.now self.new.node_states.items) self.old.node_states.items self.new.node_states.items
            (M.gone machine.old) (M.gone machine.new) text.old.items text.new.items result }
        ensures stops { IfErr result (StopsAt line.now) }
        ensures unchanged { IfErr result (λ stop. IsNoNet stop → (text.new.items ≡ text.old.items) × (self.new.node_states.items ≡ self.old.node_states.items) × (M.gone machine.new ≡ M.gone machine.old)) }
    {
        match &line.event {
            UdpEvent::Rounds(count) => self.rounds(machine, *count, text)?,
            UdpEvent::Node(event) => match asked_by(event) {
                Asked::Start(node) => {
                    return self.start(settings, machine, line.number, node, text);
                }
                Asked::Crash(node) => self.crash(machine, line.number, node, text)?,
                Asked::Call(node, call) => {
                    self.call(settings, machine, line.number, node, &call, text)?;
                }
                Asked::Nothing => (),
            },
        }
        Ok(())
    }

    // Appends the chat line of each member that runs, by node.
    pub(crate) fn append_states(&mut self, text: &mut Vec<u8>) -> Result<(), AllocError>
        ensures text { OnOk result (text.new.items ≡ text.old.items ++ concat (map (state_text C.line_of) (processes_in self.old.node_states.items))) }
        ensures err { OnErr result ((count : ℕ) × (text.new.items ≡ text.old.items ++ concat (take count (map (state_text C.line_of) (processes_in self.old.node_states.items))))) }
        ensures same { self.new.node_states.items ≡ self.old.node_states.items }
    {
        for index in 0..self.node_states.len() {
            self.node_states[index].append_state(text)?;
        }
        Ok(())
    }

    // Lets each process go, by node.
    pub(crate) fn close<M: NodeMachine<Net = N>>(&mut self, machine: &mut M)
        ensures { GivesBack (M.gone machine.old) (map net_of (processes_in self.old.node_states.items)) (M.gone machine.new) }
    {
        for index in 0..self.node_states.len() {
            self.node_states[index].close(machine);
        }
    }

    // So many rounds of each member that runs.
    fn rounds<M: NodeMachine<Net = N>>(
        &mut self,
        machine: &mut M,
        count: u64,
        text: &mut Vec<u8>,
    ) -> Result<(), AllocError>
        ensures { (group : List ℕ) → GoesOn N.log N.failed C.meaning group (RoundsOf N.log N.failed C.meaning self.old.node_states.items count self.new.node_states.items) self.old.node_states.items self.new.node_states.items
            (M.gone machine.old) (M.gone machine.new) text.old.items text.new.items result }
    {
        for done in 0..count {
            self.round(machine, text)?;
        }
        Ok(())
    }

    // A round of each member that runs, by node.
    fn round<M: NodeMachine<Net = N>>(
        &mut self,
        machine: &mut M,
        text: &mut Vec<u8>,
    ) -> Result<(), AllocError>
        ensures { (group : List ℕ) → GoesOn N.log N.failed C.meaning group (RoundOf N.log N.failed C.meaning self.old.node_states.items (length self.old.node_states.items) self.new.node_states.items) self.old.node_states.items self.new.node_states.items
            (M.gone machine.old) (M.gone machine.new) text.old.items text.new.items result }
    {
        for index in 0..self.node_states.len() {
            self.node_states[index].round(machine, text)?;
        }
        Ok(())
    }

    // The index of a node; `None` for one that the settings do not list.
    fn index_of(&self, node: Node) -> Option<usize>
        ensures within { IfSome result (λ index. index < vec_len self.now.node_states) }
        ensures node { IfSome result (λ index. IsSomeAnd (slice_get self.now.node_states.items index) (λ x. x.node ≡ node)) }
        ensures first { IfSome result (λ index. IsFirst node index self.now.node_states.items) }
        ensures unlisted { IfNone result (list_any (λ x. nat_eq x.node node) self.now.node_states.items ≡ false) }
    {
        for index in 0..self.node_states.len() {
            if self.node_states[index].node == node {
                return Some(index);
            }
        }
        None
    }

    // Starts the next member of a node. Refused with 50 where the settings do not list the node, with 5 where one runs, and with 8 after the last incarnation.
    fn start<M: NodeMachine<Net = N>>(
        &mut self,
        settings: &Settings,
        machine: &mut M,
        line: u64,
        node: Node,
        text: &mut Vec<u8>,
    ) -> Result<(), Stop>
        ensures goes { GoesOn N.log N.failed C.meaning settings.now.group (DoesLine N.log N.failed C.meaning settings.now.group self.old.node_states.items (start_line line node) self.new.node_states.items) self.old.node_states.items self.new.node_states.items
            (M.gone machine.old) (M.gone machine.new) text.old.items text.new.items result }
        ensures stops { IfErr result (StopsAt (start_line line node)) }
        ensures unchanged { IfErr result (λ stop. IsNoNet stop → (text.new.items ≡ text.old.items) × (self.new.node_states.items ≡ self.old.node_states.items) × (M.gone machine.new ≡ M.gone machine.old)) }
    {
        let Some(index) = self.index_of(node) else {
            append_refusal(text, line, BindError::Config.number())?;
            return Ok(());
        };
        match self.node_states[index].next_address() {
            Ok(address) => self.start_at(settings, machine, line, index, address, text),
            Err(refusal) => {
                append_refusal(text, line, refusal.number())?;
                Ok(())
            }
        }
    }

    // Starts the member of an address at the node of an index.
    fn start_at<M: NodeMachine<Net = N>>(
        &mut self,
        settings: &Settings,
        machine: &mut M,
        line: u64,
        index: usize,
        address: Address,
        text: &mut Vec<u8>,
    ) -> Result<(), Stop>
        requires within { index < vec_len self.old.node_states }
        ensures goes { (node : ℕ) → IsSomeAnd (slice_get self.old.node_states.items index) (λ x. (x.node ≡ node) × IsNext x address × IsFirst node index self.old.node_states.items)
            → GoesOn N.log N.failed C.meaning settings.now.group (DoesLine N.log N.failed C.meaning settings.now.group self.old.node_states.items (start_line line node) self.new.node_states.items) self.old.node_states.items self.new.node_states.items
            (M.gone machine.old) (M.gone machine.new) text.old.items text.new.items result }
        ensures stops { (node : ℕ) → IfErr result (StopsAt (start_line line node)) }
        ensures unchanged { IfErr result (λ stop. IsNoNet stop → (text.new.items ≡ text.old.items) × (self.new.node_states.items ≡ self.old.node_states.items) × (M.gone machine.new ≡ M.gone machine.old)) }
    {
        match machine.net(address.node()) {
            Ok(net) => {
                self.node_states[index].start(self.alloc, address, net, settings, text)?;
                Ok(())
            }
            Err(error) => Err(Stop::NoNet(line, error)),
        }
    }

    // Lets the member of a node crash. Refused with 1 where no member was started there.
    fn crash<M: NodeMachine<Net = N>>(
        &mut self,
        machine: &mut M,
        line: u64,
        node: Node,
        text: &mut Vec<u8>,
    ) -> Result<(), AllocError>
        ensures { (group : List ℕ) → GoesOn N.log N.failed C.meaning group (DoesLine N.log N.failed C.meaning group self.old.node_states.items (line_of_event line (event.Crash node)) self.new.node_states.items) self.old.node_states.items self.new.node_states.items
            (M.gone machine.old) (M.gone machine.new) text.old.items text.new.items result }
    {
        match self.index_of(node) {
            Some(index) => self.node_states[index].crash(machine, line, text),
            None => append_refusal(text, line, Refusal::NotConnected.number()),
        }
    }

    // Does a call at the member of a node. Refused with 1 where no member was started there.
    fn call<M: NodeMachine<Net = N>>(
        &mut self,
        settings: &Settings,
        machine: &mut M,
        line: u64,
        node: Node,
        call: &Call<'_>,
        text: &mut Vec<u8>,
    ) -> Result<(), AllocError>
        ensures { (asked : WorldEvent) → Asks asked node call.now → GoesOn N.log N.failed C.meaning settings.now.group (DoesLine N.log N.failed C.meaning settings.now.group self.old.node_states.items (line_of_event line asked) self.new.node_states.items) self.old.node_states.items self.new.node_states.items
            (M.gone machine.old) (M.gone machine.new) text.old.items text.new.items result }
    {
        match self.index_of(node) {
            Some(index) => self.node_states[index].call(
                self.alloc,
                machine,
                settings.group().as_slice(),
                line,
                call,
                text,
            ),
            None => append_refusal(text, line, Refusal::NotConnected.number()),
        }
    }
}
