//! States that are entries in the order of their keys, each with a token, and the last token that was given: as bytes, and from bytes. A replicated map and a
//! table of locks are such states (docs/RECEIVERS.md, "The map's state", "The table of locks").
//!
//! A token is a number that rises with the messages of a replicated state, also from one view to the next. By them a lock's guard tells an older grant from a
//! later one, and a map's writers a value from the same one that was put again (docs/RECEIVERS.md, "Tokens").
#![tactic(auto)]

mod decoding;
mod encoding;
mod entries;
mod kept;
mod keys;
mod token;
mod token_decoding;
mod token_encoding;
mod token_law;
mod token_text;
mod words;

pub use decoding::{Contents, contents_of};
pub use encoding::{put_state, size_of_all};
pub use entries::{KEY, KeyedEntry, Place, find, is_rising, look_ups};
pub use kept::Kept;
pub use keys::{KeyBytes, key_from, put_key};
pub use token::Token;
pub use token_decoding::{token_from, view_id_from};
pub use token_encoding::{known_view_id, put_token, put_view_id};
pub use token_law::tokens_are_ordered;
pub use token_text::{put_token_text, token_in};
pub use words::{key_field, last_key};

/// In how many bytes a view id is spelled: its counter in 8, its creator's node in 2 and incarnation in 4.
pub const VIEW_ID_BYTES: usize = 14;

/// In how many bytes a token is spelled: its view id, and its count in 8.
pub const TOKEN_BYTES: usize = VIEW_ID_BYTES + 8;
