//! The checker of traces: whether a trace is virtually synchronous, and else which rule breaks first and where.
#![tactic(auto)]

mod checker;
mod rules;

pub use checker::check;
