//! What the commands of the program do, as functions over a reader and a writer.
#![tactic(auto)]

mod asides;
mod checks;
mod draws;
mod law;
mod member_texts;
mod packets;
mod processes;
mod scripts;
mod settles;
mod states;

pub use checks::run_check;
pub use draws::{run_draw, run_draw_trace};
pub use law::{asides_in_order, each_packet_once};
pub use packets::run_packets;
pub use processes::run_check_processes;
pub use scripts::run_script;
pub use settles::settle_script;
pub use states::run_states;
