ghost use Rattle.std.specs.Prelude.{◌≡◌, [], true, Some, if◌then◌else◌};

use address::{Address, Node};
use memory_nets::MemoryNet;
use std::alloc::Global;
use std::marker::Model;
use std::time::Duration;
use udp_net::BindError;
use udp_runs::{NodeMachine, Tally};

/// A net that was given back, and the member that had it.
#[derive(Drop)]
pub struct Returned {
    /// The member.
    pub by: Address,
    /// Its net.
    pub net: MemoryNet,
}

/// A machine whose nets list what happens at them, and carry nothing. It keeps those that are given back, in order.
pub struct Shelf {
    alloc: Global,
    returned: Vec<Returned>,
    // Whether it has all of them.
    is_whole: bool,
}

impl Drop for Shelf {
    fn drop(self) {
        let Shelf {
            alloc: _,
            returned: _,
            is_whole: _,
        } = self;
    }
}

impl Model for Shelf {
    ghost use Rattle.udp_scenarios.specs.Shelves.{ShelfModel};

    ghost Value = { ShelfModel };

    ghost view = { λ s. record { returned = s.returned.items; is_whole = s.is_whole } };
}

impl Shelf {
    /// A machine to which nothing was given back.
    pub fn new(alloc: Global) -> Shelf
        ensures { result ≡ record { returned = []; is_whole = true } }
    {
        Shelf {
            alloc,
            returned: Vec::new(alloc),
            is_whole: true,
        }
    }

    /// The nets that were given back; none of them, if memory was refused for one.
    pub fn returned(&self) -> &[Returned]
        ensures { result.now ≡ (if self.now.is_whole then self.now.returned else []) }
    {
        if self.is_whole {
            self.returned.as_slice()
        } else {
            &[]
        }
    }
}

impl NodeMachine for Shelf {
    type Net = MemoryNet;

    ghost use Rattle.std.specs.Prelude.{map, None};

    // Those that were given back; none is known where it has not all of them.
    ghost gone = { λ s. if s.is_whole then Some (map (λ r. record { by = r.by; net = r.net }) s.returned) else None };

    fn net(&mut self, _node: Node) -> Result<MemoryNet, BindError> {
        Ok(MemoryNet::new(self.alloc))
    }

    fn close(&mut self, member: Address, net: MemoryNet) {
        let given = Returned { by: member, net };
        if self.returned.push(given).is_err() {
            self.is_whole = false;
        }
    }

    fn now(&mut self) -> Duration {
        Duration::MAX
    }

    fn tell(&mut self, _tally: &Tally) {}
}
