//! The picture of a trace: which row and column each event has, which marks are drawn there, and how they are spelled as an SVG (docs/FORMATS.md, "Pictures").
#![tactic(auto)]

mod aside;
mod asides;
mod broken;
mod known;
mod labels;
mod law;
mod layout;
mod levels;
mod marks;
mod packet_rows;
mod packets;
mod picture;
mod refusals;
mod row;
mod spelling;
mod texts;
mod ways;

pub use aside::{Aside, AsideKind, AsideRow};
pub use law::{
    asides_between_events, broken_rule_where_it_breaks, columns_by_member, lines_between_events,
    rows_in_order, texts_add_no_mark, ways_of_packets,
};
pub use layout::{Layout, lay_out};
pub use marks::{Mark, Place};
pub use picture::draw;
pub use row::{Line, MessageKey, Row};
