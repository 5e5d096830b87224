//! What a checker keeps of the events so far.
mod in_views;
mod keys;
mod lasts;
mod notes;
mod past;
mod standing;
mod states;
mod tables;

pub use in_views::{InView, delivered_at, delivered_count, entry, last, sent_at, sent_count};
pub use past::Past;
pub use standing::{Standing, member};
pub use states::States;
