ghost use Rattle.std.specs.Prelude.{◌≡◌, [], length, IfOk, IfErr, OnOk, Some};
ghost use Rattle.std.specs.Option.{option_copied, option_map};
ghost use Rattle.std.specs.Result.{result_err};
ghost use Rattle.member.specs.declared.input.Input.TheVariants as input;
ghost use Rattle.channel.specs.declared.stage.Stage.TheVariants.{Apart, Ended};
ghost use Rattle.channel.specs.Channels.{left_by, view_in, is_blocked, receiver_in, heard_at, promised_in, stable_in};
ghost use Rattle.channel.specs.Calls.{Calls, CallsLent, Connects, Reconnects, Watches};
ghost use Rattle.channel.specs.Queues.{TakesFirst, sent_at};
ghost use Rattle.channel.specs.Stages.{Keeps};

use crate::queues::{number_sent, put_all};
use crate::stage::Stage;
use address::limits::Refusal;
use address::{Address, ViewId};
use member::{Error, Heard, Input};
use state_transfer::Receiver;
use std::alloc::Global;
use std::collections::VecDeque;
use std::marker::Model;
use step_output::{Outgoing, Output};
use trace_props::Event;
use view::View;

/// What an application holds of a group: its member, behind calls, with the packets and the events of its steps until they are taken. Each call is one step
/// of the member (docs/PROTOCOL.md, "The atomic step"). A call before a connect is refused with 1, and after the end with 6; but `view`, `is_blocked`, `receiver`,
/// `address`, `outgoing` and `happened` answer always.
///
/// An error changes nothing, but two: after 6 and 7 the channel has ended, what the step would have put out is dropped, and what waited before waits on.
pub struct Channel<R: Receiver> {
    alloc: Global,
    address: Address,
    stage: Stage<R>,
    outgoing: VecDeque<Outgoing>,
    happened: VecDeque<Event>,
}

impl<R: Receiver> Drop for Channel<R> {
    fn drop(self) {
        let Channel {
            alloc: _,
            address: _,
            stage: _,
            outgoing: _,
            happened: _,
        } = self;
    }
}

impl<R: Receiver> Model for Channel<R> {
    ghost use Rattle.channel.specs.Channels.{ChannelModel, RunsAt};

    ghost Value = { ChannelModel R };

    ghost view = { λ c. record { address = c.address; stage = c.stage; outgoing = c.outgoing.items; happened = c.happened.items } };

    ghost invariant = { λ c. RunsAt c.address c.stage };
}

impl<R: Receiver> Channel<R> {
    /// The channel of an address, with the receiver that its member will have: not connected yet. Takes no memory; what it takes later is from `alloc`.
    pub fn new(alloc: Global, address: Address, receiver: R) -> Channel<R>
        ensures { result ≡ record { address = address; stage = Apart receiver; outgoing = []; happened = [] } }
    {
        Channel {
            alloc,
            address,
            stage: Stage::Apart(receiver),
            outgoing: VecDeque::new(alloc),
            happened: VecDeque::new(alloc),
        }
    }

    /// Makes a group of this name, of itself alone (docs/PROTOCOL.md, "Joining"). Refused, in this order, with 6 after its end, with 5 where it is connected,
    /// and with 9 where `name` is not of 1 to 32 letters, digits, `-` and `_` of ASCII; with 7 where memory was refused.
    pub fn connect_new(&mut self, name: &[u8]) -> Result<(), Error>
        ensures connects { Connects R.meaning input.Create name.now self.old (result_err result) self.new }
        ensures left { IfErr result (λ e. self.new ≡ left_by e self.old) }
    {
        self.stage.begin(self.alloc, self.address, name)?;
        self.act(&Input::Create)
    }

    /// Asks the member of a contact's address to be let into the group of this name (docs/PROTOCOL.md, "Joining"). Called again under that name while it has no
    /// view, it asks another contact. Refused, in this order, with 6 after its end, with 5 in a view and under another name than it is connected by, and with 9
    /// where `name` is not of 1 to 32 letters, digits, `-` and `_` of ASCII; with 7 where memory was refused.
    pub fn connect_to(&mut self, name: &[u8], contact: Address) -> Result<(), Error>
        ensures connects { Reconnects R.meaning (input.Join contact) name.now self.old (result_err result) self.new }
        ensures left { IfErr result (λ e. self.new ≡ left_by e self.old) }
    {
        if !self.stage.is_in(name) {
            self.stage.begin(self.alloc, self.address, name)?;
        }
        self.act(&Input::Join(contact))
    }

    /// Sends a message in its view, and answers the message's number there (docs/PROTOCOL.md, "Sending"); its first event is that it was sent. A refused payload
    /// comes back, as it was. Refused, in this order, with 6 after its end, with 1 without a view, with 4 for more than `PAYLOAD` bytes (`limits`), with 2 while it is blocked,
    /// with 3 where `OUTSTANDING` of its messages are, and with 8 where `GREATEST_NUMBER` were sent in this view; with 7 where memory was refused.
    pub fn send(&mut self, payload: Vec<u8>) -> Result<u64, (Vec<u8>, Error)>
        ensures calls { CallsLent R.meaning input.Send payload.items self.old (option_map (λ refused. refused.1) (result_err result)) self.new }
        ensures left { IfErr result (λ refused. self.new ≡ left_by refused.1 self.old) }
        ensures payload { IfErr result (λ refused. refused.0 ≡ payload) }
        ensures sent { IfOk result (λ n. sent_at (length self.old.happened) self.new.happened ≡ Some (record { number = n; payload = payload.items })) }
    {
        match self.call(&Input::Send(payload.as_slice())) {
            Ok(Some(number)) => Ok(number),
            Ok(None) => unreachable!(),
            Err(refused) => Err((payload, refused)),
        }
    }

    /// Leaves the group, for good, and says so to the others of its view (docs/PROTOCOL.md, "Leaving"): the channel has ended. Refused with 1 before a connect, with
    /// 6 after its end, and with 7 where memory was refused.
    pub fn disconnect(&mut self) -> Result<(), Error>
        ensures calls { Calls R.meaning input.Leave self.old (result_err result) self.new }
        ensures ended { OnOk result (self.new.stage ≡ Ended) }
        ensures left { IfErr result (λ e. self.new ≡ left_by e self.old) }
    {
        self.act(&Input::Leave)
    }

    /// Takes a datagram that came (docs/PROTOCOL.md, "Which packets are ignored"), and answers what packet it spelled, where that is of this group, to this
    /// address, and from another: from whom, of which kind, and about which view or proposal. Refused with 1 before a connect, with 6 after its end, with 20 to 26 where the bytes spell no packet (docs/WIRE.md), and with 7 where memory was refused;
    /// with 6, and it has ended, where it would enter a view by it with a state that its receiver cannot read (docs/PROTOCOL.md, "State transfer").
    pub fn incoming(&mut self, bytes: &[u8]) -> Result<Option<Heard>, Error>
        ensures calls { Calls R.meaning (input.Datagram bytes.entry) self.old (result_err result) self.new }
        ensures left { IfErr result (λ e. self.new ≡ left_by e self.old) }
        ensures heard { IfOk result (λ heard. heard ≡ heard_at bytes.now self.old) }
    {
        let taken = self.stage.take(bytes)?;
        self.keep(taken.out)?;
        Ok(taken.heard)
    }

    /// Tells it that the member of an address has failed (docs/PROTOCOL.md, "Suspicion"). Refused with 1 before a connect, with 6 after its end, and with 7 where
    /// memory was refused.
    pub fn suspect(&mut self, address: Address) -> Result<(), Error>
        ensures calls { Calls R.meaning (input.Suspect address) self.old (result_err result) self.new }
        ensures left { IfErr result (λ e. self.new ≡ left_by e self.old) }
    {
        self.act(&Input::Suspect(address))
    }

    /// Tells it that a member of another view of the group may be reached at an address (docs/PROTOCOL.md, "Merging"). Refused with 1 before a connect, with 6 after
    /// its end, and with 7 where memory was refused.
    pub fn merge_hint(&mut self, address: Address) -> Result<(), Error>
        ensures calls { Calls R.meaning (input.MergeHint address) self.old (result_err result) self.new }
        ensures left { IfErr result (λ e. self.new ≡ left_by e self.old) }
    {
        self.act(&Input::MergeHint(address))
    }

    /// Tells it that time passes: what may be lost is put out again (docs/PROTOCOL.md, "Ticks"). Refused with 1 before a connect, with 6 after its end, and with 7
    /// where memory was refused.
    pub fn tick(&mut self) -> Result<(), Error>
        ensures calls { Calls R.meaning input.Tick self.old (result_err result) self.new }
        ensures left { IfErr result (λ e. self.new ≡ left_by e self.old) }
    {
        self.act(&Input::Tick)
    }

    /// Whose silence would hold up its view, so that a failure detector should watch them (docs/PROTOCOL.md, "Watched"). Refused with 1 before a connect, with 6
    /// after its end, and with 7 where memory was refused: the channel is then as before, and goes on.
    pub fn watched(&self) -> Result<Vec<Address>, Error>
        ensures { Watches self.now.stage result }
    {
        match &self.stage {
            Stage::Apart(_) => Err(Error::Refused(Refusal::NotConnected)),
            Stage::Connected(member) => Ok(member.watched()?),
            Stage::Ended => Err(Error::Refused(Refusal::Closed)),
        }
    }

    /// Its view; `None` where it has none yet, and after its end (docs/PROTOCOL.md, "What a member keeps").
    pub fn view(&self) -> Option<&View>
        ensures { option_copied result ≡ view_in self.now.stage }
    {
        match &self.stage {
            Stage::Connected(member) => member.view(),
            Stage::Apart(_) | Stage::Ended => None,
        }
    }

    /// Whether it is in a view and has promised a later one: it may send nothing until that is installed (docs/PROTOCOL.md, "What a member keeps"). Not before a
    /// connect, and not after its end.
    pub fn is_blocked(&self) -> bool
        ensures { result ≡ is_blocked self.now.stage }
    {
        match &self.stage {
            Stage::Connected(member) => member.is_blocked(),
            Stage::Apart(_) | Stage::Ended => false,
        }
    }

    /// The id of the view that it promised last (docs/PROTOCOL.md, "Promise"): that of its own view unless it is blocked. `None` before the first, before a connect and after
    /// its end.
    pub fn promised(&self) -> Option<ViewId>
        ensures { result ≡ promised_in self.now.stage }
    {
        match &self.stage {
            Stage::Connected(member) => member.promised(),
            Stage::Apart(_) | Stage::Ended => None,
        }
    }

    /// How many messages of its view it knows to be stable: each member of the view has delivered them, the first of its order. They are in the state of each that goes on from this
    /// view, unless that is given another state later (docs/PROTOCOL.md, "Stability"). 0 when a view is installed, without a view, and after its end.
    pub fn stable(&self) -> u64
        ensures { result ≡ stable_in self.now.stage }
    {
        match &self.stage {
            Stage::Connected(member) => member.stable(),
            Stage::Apart(_) | Stage::Ended => 0,
        }
    }

    /// Its receiver, as the steps left it; `None` after its end (docs/GUARANTEES.md, "The receiver's laws").
    pub fn receiver(&self) -> Option<&R>
        ensures { option_copied result ≡ receiver_in self.now.stage }
    {
        match &self.stage {
            Stage::Apart(receiver) => Some(receiver),
            Stage::Connected(member) => member.receiver(),
            Stage::Ended => None,
        }
    }

    /// Its address.
    pub fn address(&self) -> Address
        ensures { result ≡ self.now.address }
    {
        self.address
    }

    /// Takes the packet that was put out first of those that were not taken yet: to whom, and its bytes (docs/WIRE.md).
    pub fn outgoing(&mut self) -> Option<Outgoing>
        ensures first { TakesFirst result self.old.outgoing self.new.outgoing }
        ensures others { self.new ≡ record self.old { outgoing = self.new.outgoing } }
    {
        self.outgoing.pop_front()
    }

    /// Takes the event that happened first of those that were not taken yet (docs/GUARANTEES.md, "Traces").
    pub fn happened(&mut self) -> Option<Event>
        ensures first { TakesFirst result self.old.happened self.new.happened }
        ensures others { self.new ≡ record self.old { happened = self.new.happened } }
    {
        self.happened.pop_front()
    }

    // One step of its member by which no message is sent.
    fn act(&mut self, input: &Input<'_>) -> Result<(), Error>
        ensures calls { Calls R.meaning input.now self.old (result_err result) self.new }
        ensures left { IfErr result (λ e. self.new ≡ left_by e self.old) }
    {
        self.call(input)?;
        Ok(())
    }

    // One step of its member; it answers the number of the message that was sent by it.
    fn call(&mut self, input: &Input<'_>) -> Result<Option<u64>, Error>
        ensures calls { Calls R.meaning input.now self.old (result_err result) self.new }
        ensures left { IfErr result (λ e. self.new ≡ left_by e self.old) }
        ensures number { IfOk result (λ n. n ≡ option_map (λ m. m.number) (sent_at (length self.old.happened) self.new.happened)) }
    {
        let out = self.stage.hand(input)?;
        let number = number_sent(&out.events);
        self.keep(out)?;
        Ok(number)
    }

    // What a step put out waits behind what waited; where room for it is refused, it has ended.
    fn keep(&mut self, out: Output) -> Result<(), Error>
        ensures { Keeps out self.old (result_err result) self.new }
    {
        if put_all(&mut self.outgoing, &mut self.happened, out).is_err() {
            self.stage = Stage::Ended;
            return Err(Error::Refused(Refusal::Memory));
        }
        Ok(())
    }
}
