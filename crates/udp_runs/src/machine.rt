ghost use Rattle.std.specs.Prelude.{◌≡◌, ◌∷◌, [], List, Option, IfOk};
ghost use Rattle.std.specs.Option.{ForSome};
ghost use Rattle.law_runners.specs.Systems.{Gone};
ghost use Rattle.udp_runs.specs.Machines.{GivesBack};

use crate::{NodeStatus, Notice, Tally};
use address::{Address, Node};
use std::time::Duration;
use udp_net::{BindError, Net};

/// What members over datagrams need of the machine that they run on.
pub trait NodeMachine {
    /// What carries the datagrams of one node.
    type Net: Net;

    /// The nets that were given back to it, each with the member that had it; none, where it keeps no list of them.
    ghost gone: { Self → Option (List (Gone Self.Net)) };

    /// The net of a node, as long as it is kept; nothing happened there yet. Refused with 50 where there is none for the node, with 51 where its socket cannot be bound, as
    /// where its port is taken, and with 7 where memory was refused.
    fn net(&mut self, node: Node) -> Result<Self::Net, BindError>
        ensures fresh { IfOk result (λ net. ForSome (Self.Net.log net) (λ l. l ≡ [])) }
        ensures gone { gone self.new ≡ gone self.old };

    /// Takes back the net of a member that is gone.
    fn close(&mut self, member: Address, net: Self::Net)
        ensures { GivesBack (gone self.old) (record { by = member; net = net } ∷ []) (gone self.new) };

    /// The time since some moment; it never goes back. Where there is no clock, the greatest duration, so that nothing waits.
    fn now(&mut self) -> Duration
        ensures { gone self.new ≡ gone self.old };

    /// Is told what happened at a node that ran by itself.
    fn tell(&mut self, tally: &Tally)
        ensures { gone self.new ≡ gone self.old };

    /// Is shown, at most once a second, how a node is that runs by itself, and the members of its view, in its order.
    fn show(&mut self, _status: &NodeStatus, _members: &[Address])
        ensures { gone self.new ≡ gone self.old }
    {}

    /// Is told, while a node runs by itself, what whoever looks after it should know.
    fn notice(&mut self, _notice: Notice)
        ensures { gone self.new ≡ gone self.old }
    {}
}
