//! One trace of the traces of several processes, in an order that agrees with what each of them waited for (docs/CLI.md, "Texts of several processes"); and the law
//! that the verdict on them is the same in every such order.
#![tactic(auto)]

mod copies;
mod fact;
mod merging;
mod verdicts;

pub use fact::{Fact, MessageKey};
pub use merging::{MergeError, merge};
pub use verdicts::verdicts_are_the_same;
