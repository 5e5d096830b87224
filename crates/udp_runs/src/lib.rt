//! The commands of the program for members over datagrams, as functions over a machine's nets, a reader and a writer.
//! What a node does in one turn, and how it tells it: calls of its member's channel, the lines of all that happened by them, and how a text ends.
//! What it has to send: where its lines come from, those that wait, and those that it sent and has not seen delivered.
#![tactic(auto)]

mod calls;
mod ends;
mod lines;
mod lone;
mod looking;
mod loopback;
mod machine;
mod manner;
mod node_net;
mod node_state;
mod nodes;
mod one_node;
mod outbox;
mod process;
mod script;
mod searching;
mod sending;
mod speaking;
mod stable_lines;
mod telling;
mod unsaid;
mod watch;

pub use lines::{Lines, LinesError, NoLines};
pub use loopback::Loopback;
pub use machine::NodeMachine;
pub use manner::{LineTrouble, NodeManner, NodeStatus, Notice, Tally};
pub use node_net::NodeNet;
pub use one_node::run_member;
pub use script::run_udp;
pub use vsync_text::MemberPlan;
