ghost use Rattle.std.specs.Prelude.{None};

use address::{Address, Node};
use memory_nets::{Wire, Wires};
use std::cell::RefCell;
use std::time::Duration;
use udp_net::BindError;
use udp_runs::{NodeMachine, Tally};

/// How much later it is each time that the machine is asked for the time, in milliseconds.
const STEP: u64 = 10;

/// The machine whose nodes these wires join. Its time goes on by `STEP` each time that it is asked for.
#[derive(Drop)]
pub struct Hub<'a> {
    /// The wires.
    pub wires: &'a RefCell<Wires>,
    /// What a node that ran by itself told last.
    pub tally: Option<Tally>,
}

impl<'a> Hub<'a> {
    /// The machine of these wires, to which no node told anything yet.
    pub fn new(wires: &'a RefCell<Wires>) -> Hub<'a> {
        Hub { wires, tally: None }
    }
}

impl<'a> NodeMachine for Hub<'a> {
    type Net = Wire<'a>;

    ghost gone = { λ _. None };

    fn net(&mut self, node: Node) -> Result<Wire<'a>, BindError> {
        if let Ok(wires) = self.wires.try_borrow() {
            if wires.taken == Some(node) {
                return Err(BindError::Bind);
            }
        }
        Ok(Wire::new(self.wires, node))
    }

    fn close(&mut self, _member: Address, _net: Wire<'a>) {}

    fn now(&mut self) -> Duration {
        match self.wires.try_borrow_mut() {
            Ok(mut wires) => wires.pass(Duration::from_millis(STEP)),
            Err(_) => Duration::MAX,
        }
    }

    fn tell(&mut self, tally: &Tally) {
        self.tally = Some(*tally);
    }
}
