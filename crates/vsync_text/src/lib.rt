//! Text, read and written: scripts are read into events, those of a world and those of nodes over UDP; the text of a trace is read into its events; runs and
//! packets are printed line by line, and the text of every run says what happened in it (docs/FORMATS.md).
#![tactic(auto)]

mod append;
mod buffered;
mod ends;
mod fault;
mod field;
mod forms;
mod fronts;
mod hexadecimal;
mod law;
mod line_fields;
mod member_plan;
mod packet_lines;
mod part;
mod payloads;
mod pieces;
mod read_line;
mod read_text;
mod run;
mod script;
mod script_line;
mod spelling;
mod status;
mod text;
mod trace_line;
mod udp_script;

pub use append::{put, put_address, put_addresses, put_decimal, put_hex, put_number, put_view_id};
pub use buffered::put_all;
pub use ends::{Unreadable, end_in_fault, end_in_memory, end_with, end_with_lines, read_all};
pub use fault::{Fault, Unheard, Unread};
pub use field::{
    address_field, address_in, first_field, first_line, is_word, number_in, split_at_first,
};
pub use law::reads_what_is_written;
pub use member_plan::MemberPlan;
pub use packet_lines::{append_packet, append_packets};
pub use part::{Part, put_parts};
pub use payloads::{AsWritten, Payloads};
pub use pieces::{Untold, read_trace_from};
pub use read_text::read_trace;
pub use run::{Printed, write_run};
pub use script::{Script, read_script, read_script_by};
pub use script_line::is_skipped;
pub use spelling::{view_id_in, view_in};
pub use status::Status;
pub use text::Text;
pub use trace_line::{append_event, append_refusal};
pub use udp_script::{ROUNDS, UdpEvent, UdpLine, read_udp_script};
