//! The rules on the next event, as tests against what is known of the past.
mod agree;
mod messages;
mod placed;
mod rest;
mod rules;
mod views;

pub use rules::{
    keeps_handed_back, keeps_messages, keeps_next, keeps_placed, keeps_together, keeps_views,
};
