//! How far a channel has come.

ghost use Rattle.std.specs.Prelude.{◌≡◌, not, is_some, IfOk};
ghost use Rattle.std.specs.Option.{option_and_then};
ghost use Rattle.channel.specs.Channels.{member_in, is_in};
ghost use Rattle.member.specs.declared.input.Input.TheVariants as input;
ghost use Rattle.member.specs.Handling.{Handled};
ghost use Rattle.member.specs.Sources.{heard_of, output_of};
ghost use Rattle.channel.specs.Stages.{Begins, Hands};

use address::Address;
use address::limits::Refusal;
use member::{Error, Input, Member, Taken};
use state_transfer::Receiver;
use std::alloc::Global;
use std::mem;
use step_output::Output;
use wire_values::GroupName;

// One step of a member.
fn handle<R: Receiver>(member: &mut Member<R>, input: &Input<'_>) -> Result<Output, Error>
    ensures { Handled R.meaning member.old input.now result member.new }
{
    match input {
        Input::Create => member.create(),
        Input::Join(contact) => member.join(*contact),
        Input::Send(payload) => member.send(payload),
        Input::Datagram(bytes) => {
            let taken = member.take(bytes)?;
            Ok(taken.out)
        }
        Input::Tick => member.tick(),
        Input::Suspect(address) => member.suspect(*address),
        Input::MergeHint(address) => member.merge_hint(*address),
        Input::Leave => member.leave(),
    }
}

// Whether a member has ended.
fn has_ended<R: Receiver>(member: &Member<R>) -> bool
    ensures { result ≡ not (is_some member.now.member_state) }
{
    member.receiver().is_none()
}

/// How far a channel has come.
#[derive(Drop)]
pub enum Stage<R: Receiver> {
    /// It was never connected, and has the receiver that its member will have.
    Apart(R),
    /// Its member runs.
    Connected(Member<R>),
    /// It has ended, for good.
    Ended,
}

impl<R: Receiver> Stage<R> {
    // Whether its member is in the group of this name.
    pub(crate) fn is_in(&self, name: &[u8]) -> bool
        ensures { result ≡ is_in name.now self.now }
    {
        match self {
            Stage::Connected(member) => name == member.group().as_slice(),
            Stage::Apart(_) | Stage::Ended => false,
        }
    }

    // Starts its member.
    pub(crate) fn begin(
        &mut self,
        alloc: Global,
        address: Address,
        name: &[u8],
    ) -> Result<(), Error>
        ensures { Begins address name.now self.old result self.new }
    {
        let group = match self {
            Stage::Apart(_) => GroupName::new(name).ok_or(Error::Refused(Refusal::BadName))?,
            Stage::Connected(_) => return Err(Error::Refused(Refusal::AlreadyConnected)),
            Stage::Ended => return Err(Error::Refused(Refusal::Closed)),
        };
        if let Stage::Apart(receiver) = mem::replace(self, Stage::Ended) {
            *self = Stage::Connected(Member::new(alloc, address, group, receiver));
        }
        Ok(())
    }

    // One step of its member. Once that has ended, so has the channel.
    pub(crate) fn hand(&mut self, input: &Input<'_>) -> Result<Output, Error>
        ensures { Hands R.meaning input.now self.old result self.new }
    {
        match self {
            Stage::Apart(_) => Err(Error::Refused(Refusal::NotConnected)),
            Stage::Connected(member) => {
                let called = handle(member, input);
                let is_over = has_ended(member);
                if is_over {
                    *self = Stage::Ended;
                }
                called
            }
            Stage::Ended => Err(Error::Refused(Refusal::Closed)),
        }
    }

    // One step of its member by a datagram; it answers what packet that spelled, where it is for the member. Once that has ended, so has the channel.
    pub(crate) fn take(&mut self, bytes: &[u8]) -> Result<Taken, Error>
        ensures hands { Hands R.meaning (input.Datagram bytes.entry) self.old (output_of result) self.new }
        ensures heard { IfOk result (λ taken. taken.heard ≡ option_and_then (λ m. heard_of m.address m.group bytes.now) (member_in self.old)) }
    {
        match self {
            Stage::Apart(_) => Err(Error::Refused(Refusal::NotConnected)),
            Stage::Connected(member) => {
                let taken = member.take(bytes);
                let is_over = has_ended(member);
                if is_over {
                    *self = Stage::Ended;
                }
                taken
            }
            Stage::Ended => Err(Error::Refused(Refusal::Closed)),
        }
    }
}
