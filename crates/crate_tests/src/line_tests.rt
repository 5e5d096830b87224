//! Lines of scripts and traces, and of packets. The laws of texts are called beside.

use address::{Address, Node, ViewId};
use lock_table::LockTable;
use trace_drawing::lay_out;
use trace_merge::verdicts_are_the_same;
use vsync_text::{
    Fault, Part, Unheard, Unread, address_field, append_packet, is_skipped, put_parts, read_trace,
    reads_what_is_written,
};

#[test]
fn a_fault_is_told_with_its_line(rt: HostRuntime) {
    match Unheard::Fault(Fault::MissingField).at(7) {
        Unread::Fault { line, fault } => assert!(rt; line == 7 && fault.number() == 42),
        Unread::Memory => assert!(rt; false, "no memory was refused"),
    }
}

#[test]
fn fields_are_read_and_comments_are_skipped(rt: HostRuntime) {
    let address = Address::new(Node::new(3).unwrap(), 1);
    match address_field(Some(b"3.1 7.2")) {
        Ok((first, rest)) => assert!(rt;
            Some(first) == address && rest == Some(b"7.2".as_slice()),
            "the address, and what is left"
        ),
        Err(_) => assert!(rt; false, "an address is read"),
    }
    assert!(rt; is_skipped(b"") && is_skipped(b"# a word"), "no words");
    assert!(rt;
        !is_skipped(b" # a word"),
        "a comment has no space in front"
    );
}

#[test]
fn bytes_that_spell_no_packet_have_dashes(rt: HostRuntime) {
    let mut line = Vec::new(rt.alloc());
    assert!(rt;
        append_packet(&mut line, 2, b"VS").is_ok(),
        "there is memory"
    );
    assert!(rt; line.as_slice() == b"2 - - - 5653\n".as_slice(), "the line");
}

#[test]
fn each_event_has_a_row_and_each_member_a_line(rt: HostRuntime) {
    reads_what_is_written();
    verdicts_are_the_same::<LockTable>();
    let trace = read_trace(rt.alloc(), b"started 1.1\nleft 1.1\n")
        .ok()
        .expect(&rt, "a trace");
    match lay_out(rt.alloc(), trace.events(), &[]) {
        Ok(layout) => {
            assert!(rt; layout.rows.len() == 2 && layout.lines.len() == 1);
        }
        Err(_) => assert!(rt; false, "there is memory"),
    }
}

#[test]
fn a_text_has_its_parts_in_order(rt: HostRuntime) {
    let address = Address::new(Node::new(3).unwrap(), 1).unwrap();
    let parts = [
        Part::Text(b"in "),
        Part::View(ViewId::new(7, address).unwrap()),
        Part::Text(b" "),
        Part::Address(address),
        Part::Text(b" sent "),
        Part::Number(12),
    ];
    let mut text = Vec::from_slice(rt.alloc(), b"# ").expect(&rt, "memory");
    assert!(rt; put_parts(&mut text, &parts).is_ok(), "memory is there");
    assert!(rt;
        text.as_slice() == b"# in 7@3.1 3.1 sent 12".as_slice(),
        "ids and numbers as in a trace"
    );
}
