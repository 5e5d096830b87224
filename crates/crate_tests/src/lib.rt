//! Tests of the crates that a member is made of, a module for each crate; of the packets, by hand from the format's tables, to the byte; of words, `hmac` and `frames`;
//! of what runs members: how often a receiver is told of a view and of a block, lost messages that a catch-up brings, calm views that deliver everything, a step,
//! random worlds that settle;
//! and of what stands apart from views: bytes, lines, keys, tokens and states, commands of the map and of locks, guards, and what services answer.
//! They stand apart from what they test, so that it is proved once and not twice.
#![tactic(auto)]

#[cfg(test)]
mod address_tests;
#[cfg(test)]
mod calm_views;
#[cfg(test)]
mod candidates_tests;
#[cfg(test)]
mod chat_log_tests;
#[cfg(test)]
mod chunk_tests;
#[cfg(test)]
mod fixtures;
#[cfg(test)]
mod flush_tests;
#[cfg(test)]
mod framed_net_tests;
#[cfg(test)]
mod gaps;
#[cfg(test)]
mod guard_tests;
#[cfg(test)]
mod hmac_tests;
#[cfg(test)]
mod key_tests;
#[cfg(test)]
mod last;
#[cfg(test)]
mod line_tests;
#[cfg(test)]
mod lock_tests;
#[cfg(test)]
mod map_tests;
#[cfg(test)]
mod nak_stream_tests;
#[cfg(test)]
mod random_worlds;
#[cfg(test)]
mod reading_tests;
#[cfg(test)]
mod receiver_calls;
#[cfg(test)]
mod sequencer_tests;
#[cfg(test)]
mod service_tests;
#[cfg(test)]
mod stability_tests;
#[cfg(test)]
mod state_tests;
#[cfg(test)]
mod steps;
#[cfg(test)]
mod suspicion_tests;
#[cfg(test)]
mod token_tests;
#[cfg(test)]
mod trace_props_tests;
#[cfg(test)]
mod two_members;
#[cfg(test)]
mod view_install_tests;
#[cfg(test)]
mod view_tests;
#[cfg(test)]
mod wire_changes;
#[cfg(test)]
mod wire_fields;
#[cfg(test)]
mod wire_longest;
#[cfg(test)]
mod wire_samples;
#[cfg(test)]
mod wire_states;
#[cfg(test)]
mod wire_vectors;
#[cfg(test)]
mod word_tests;
