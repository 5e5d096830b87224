//! The story.

use crate::channels::calls::{
    carry, carry_one, connect_new, connect_to, disconnect, happened, lose, merge_hint, send, state,
    suspect, tick, watched,
};
use crate::channels::stands::Chat;
use crate::lines::Told;

/// What both are and what happened to them.
fn look(told: &mut Told, first: &mut Chat, second: &mut Chat) {
    state(told, first);
    state(told, second);
    watched(told, first);
    watched(told, second);
    happened(told, first);
    happened(told, second);
}

/// 1.1 makes a group and sends; 2.1 asks to be let in, twice, and is.
fn come_together(told: &mut Told, sends: &mut Vec<Vec<u8>>, first: &mut Chat, second: &mut Chat) {
    connect_new(told, first);
    send(told, first, sends);
    connect_to(told, second, 1);
    tick(told, second);
    connect_to(told, second, 1);
    watched(told, second);
    carry(told, first, second);
    look(told, first, second);
}

/// Each of them sends, and a packet of each is lost and comes after a tick.
fn exchange(told: &mut Told, sends: &mut Vec<Vec<u8>>, first: &mut Chat, second: &mut Chat) {
    send(told, second, sends);
    send(told, first, sends);
    carry(told, first, second);
    send(told, first, sends);
    lose(told, first);
    tick(told, first);
    carry(told, first, second);
    send(told, second, sends);
    lose(told, second);
    tick(told, second);
    carry(told, first, second);
    look(told, first, second);
}

/// Each suspects the other and is alone, and sends there.
fn part(told: &mut Told, sends: &mut Vec<Vec<u8>>, first: &mut Chat, second: &mut Chat) {
    suspect(told, second, 1);
    suspect(told, first, 2);
    send(told, first, sends);
    send(told, second, sends);
    lose(told, first);
    lose(told, second);
    look(told, first, second);
}

/// By a hint they come into one view again; the FLUSH is lost, and comes after a tick.
fn merge(told: &mut Told, first: &mut Chat, second: &mut Chat) {
    merge_hint(told, second, 1);
    carry_one(told, second, first);
    lose(told, first);
    look(told, first, second);
    tick(told, first);
    carry(told, first, second);
    look(told, first, second);
}

/// 2.1 sends there, is suspected, and is left in the earlier view, where a MERGE of its coordinator is ignored.
fn leave_behind(told: &mut Told, sends: &mut Vec<Vec<u8>>, first: &mut Chat, second: &mut Chat) {
    send(told, second, sends);
    carry(told, first, second);
    suspect(told, first, 2);
    look(told, first, second);
    merge_hint(told, first, 2);
    carry(told, first, second);
    look(told, first, second);
}

/// 2.1 leaves, and then 1.1; each call is made again at those that have ended.
fn leave(told: &mut Told, sends: &mut Vec<Vec<u8>>, first: &mut Chat, second: &mut Chat) {
    disconnect(told, second);
    carry(told, first, second);
    look(told, first, second);
    send(told, first, sends);
    disconnect(told, first);
    tick(told, first);
    send(told, first, sends);
    connect_new(told, first);
    connect_to(told, second, 1);
    suspect(told, first, 2);
    merge_hint(told, second, 1);
    look(told, first, second);
}

/// The whole story.
pub fn tell(told: &mut Told, sends: &mut Vec<Vec<u8>>, first: &mut Chat, second: &mut Chat) {
    come_together(told, sends, first, second);
    exchange(told, sends, first, second);
    part(told, sends, first, second);
    merge(told, first, second);
    leave_behind(told, sends, first, second);
    leave(told, sends, first, second);
}
