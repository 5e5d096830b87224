//! How a member that runs by itself finds its group (docs/RUNNER.md, "Finding").

ghost use Rattle.std.specs.Prelude.{◌≡◌, ℕ, List, Option, true};
ghost use Rattle.std.specs.Option.{option_copied};
ghost use Rattle.member.specs.declared.error.Error.{Error};
ghost use Rattle.udp_net.specs.Logs.{Lists};
ghost use Rattle.udp_runs.specs.Calls.{MakesCall};
ghost use Rattle.udp_runs.specs.Searching.{followed};
ghost use Rattle.udp_runs.specs.Telling.{Quietly};
ghost use Rattle.udp_runs.specs.Said.{AreSame, MaySay, says_nothing};

use crate::Notice;
use crate::calls::{Call, do_call};
use crate::ends::Cut;
use crate::lone::{LoneNode, left_by};
use crate::watch::Watch;
use address::Address;
use application::Application;
use channel::Channel;
use node_finding::{Finder, Lineage, Standing, Step, Whereabouts, milliseconds};
use std::alloc::Global;
use trace_props::Event;
use udp_member::Runner;
use udp_net::{MOST_NODES, Net, Settings};

// Does a call of a member's channel that says nothing, in the group of the settings.
pub(crate) fn say_nothing<N: Net, C: Application>(
    alloc: Global,
    member: &mut Runner<N, C>,
    settings: &Settings,
    call: &Call<'_>,
) -> Result<(), Cut>
    requires { says_nothing call.now ≡ true }
    ensures drives { (once start later : Option (List ℕ)) → Quietly N.log N.failed (MaySay once start later C.payload_within C.first_said) C.meaning settings.now.group member.old member.new }
    ensures makes { (failure : Option Error) × MakesCall C.meaning settings.now.group call.now member.old failure member.new }
{
    let group = settings.group();
    let answer = do_call(alloc, member, group.as_slice(), call)?;
    left_by(answer)
}

// What a member saw of the history of its view, after an event of its own.
pub(crate) fn follow(lineage: &mut Lineage, event: &Event)
    ensures { lineage.new ≡ followed event.now lineage.old }
{
    match event {
        Event::Delivered(delivery) => lineage.deliver(delivery.view),
        Event::Installed(boxed) => {
            let install = boxed.get();
            let view = install.view.id();
            if install.given.is_some() {
                lineage.enter(view);
            } else {
                lineage.install(view);
            }
        }
        _ => (),
    }
}

// Where the member of a channel is, and what it saw of the history there.
pub(crate) fn whereabouts<C: Application>(channel: &Channel<C>, lineage: Lineage) -> Whereabouts {
    let view = match channel.view() {
        Some(view) => Some(Standing {
            view: view.id(),
            members: view.members().len(),
            lineage,
        }),
        None => None,
    };
    Whereabouts {
        own: channel.address(),
        view,
    }
}

// Notes that a node found nobody, if it makes a group.
fn note_alone(watch: &mut Watch, call: &Call<'_>) {
    if matches!(call, Call::Create) {
        watch.note(Notice::FoundNobody);
    }
}

// Says to each node to which it is time to in a round where a member is.
fn say<N: Net>(net: &mut N, finder: &Finder, round: u64, now: u64, own: Address)
    ensures { Lists (N.log net.old) (λ l. l) (N.log net.new) }
{
    for place in 0..MOST_NODES {
        let Some(node) = net.words().get(place).copied() else {
            return;
        };
        if node.node != own.node() && finder.says(round, node.is_asked) {
            net.say(node.node, &finder.word(now, own, &node));
        }
    }
}

impl<'a, N: Net, C: Application> LoneNode<'a, N, C> {
    // Finds its group, where it has not ended: from its second round on, for it knows no time in the first.
    pub(crate) fn find(&mut self, settings: &Settings) -> Result<(), Cut>
        ensures drives { (start later : Option (List ℕ)) → Quietly N.log N.failed (MaySay (option_copied self.old.once) start later C.payload_within C.first_said) C.meaning settings.now.group self.old.member self.new.member }
        ensures voice { self.new.teller.voice ≡ self.old.teller.voice }
        ensures texts { AreSame self.old.once self.old.outbox self.old.teller.unsaid self.new.once self.new.outbox self.new.teller.unsaid }
    {
        if self.has_ended | (self.round == 0) {
            return Ok(());
        }
        let now = milliseconds(self.time);
        let at = whereabouts(self.member.channel_ref(), self.teller.lineage);
        let step = self.finder.step(now, &at, self.member.net_ref().words());
        say(self.member.net(), &self.finder, self.round, now, at.own);
        let call = match step {
            Step::Stay => return Ok(()),
            Step::Ask(contact) => Call::Join(contact),
            Step::Make => Call::Create,
            Step::Again => {
                self.gives_up = true;
                return Ok(());
            }
        };
        let said = say_nothing(self.alloc, &mut self.member, settings, &call);
        note_alone(&mut self.watch, &call);
        said
    }
}
