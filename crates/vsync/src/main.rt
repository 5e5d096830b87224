//! The program `vsync`: it does what its words ask for.
#![tactic(auto)]

mod arguments;
mod check_words;
mod explain_words;
mod explaining;
mod hosts;
mod http_address;
mod http_lines;
mod incarnations;
mod kept_lines;
mod kept_words;
mod keys;
mod member_options;
mod node_runs;
mod output;
mod process_texts;
mod programs;
mod said;
mod text_words;
mod texts;
mod topic;
mod udp_programs;
mod udp_words;
mod watched;
mod words;

use programs::program;
use std::process::ExitCode;

fn main(rt: HostRuntime) -> ExitCode {
    ExitCode::from(program(&rt).code())
}
