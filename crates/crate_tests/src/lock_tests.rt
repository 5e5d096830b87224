use crate::fixtures::{first_at, first_view};
use address::ViewId;
use keyed_state::KeyBytes;
use lock_table::{
    Command, LockTable, Standing, in_turn, moves, one_encoding, one_holder, one_spelling,
    release_by_another, roll_again, stamps_spell, standing_of, tokens_rise,
};
use state_transfer::Receiver;
use std::alloc::{AllocError, Global};

// By hand from the tables of docs/RECEIVERS.md, "The table of locks". The member 1.1, the view 1@1.1, and a count.
const FIRST: &[u8] = b"\x00\x01\x00\x00\x00\x01";

const EARLY: &[u8] = b"\x00\x00\x00\x00\x00\x00\x00\x01\x00\x01\x00\x00\x00\x01";

const COUNT_1: &[u8] = b"\x00\x00\x00\x00\x00\x00\x00\x01";

// Acquire `a` and `b` in 1@1.1.
const ACQUIRE_A: &[u8] = b"\x01\x00\x00\x00\x00\x00\x00\x00\x01\x00\x01\x00\x00\x00\x01\x01a";

const ACQUIRE_B: &[u8] = b"\x01\x00\x00\x00\x00\x00\x00\x00\x01\x00\x01\x00\x00\x00\x01\x01b";

#[test]
fn an_acquire_that_is_stamped_anew_spells_that_view(rt: HostRuntime) {
    one_encoding();
    one_spelling();
    stamps_spell();
    roll_again();
    let acquire = Command::Acquire {
        view: ViewId::new(2, first_at(2)).unwrap(),
        name: KeyBytes::new(b"a").unwrap(),
    };
    let mut payload = Vec::new(rt.alloc());
    match acquire.in_view(first_view()) {
        Some(acquire) => assert!(rt; acquire.encode(&mut payload).is_ok(), "there is memory"),
        None => assert!(rt; false, "an acquire"),
    }
    assert!(rt; payload.as_slice() == ACQUIRE_A, "the payload");
}

// 1.1 and 2.1 ask for `b`, and 3.1 for `a`.
fn ask(table: &mut LockTable) -> Result<(), AllocError> {
    table.receive(first_at(1), ACQUIRE_B)?;
    table.receive(first_at(2), ACQUIRE_B)?;
    table.receive(first_at(3), ACQUIRE_A)
}

#[test]
fn one_holds_a_lock_and_others_wait(rt: HostRuntime) {
    one_holder();
    in_turn();
    tokens_rise();
    release_by_another();
    moves();
    let mut table = LockTable::opening(rt.alloc()).ok().expect(&rt, "a table");
    assert!(rt; table.is_empty(), "no lock is held yet");
    assert!(rt; ask(&mut table).is_ok(), "there is memory");
    assert!(rt; table.last().count == 2, "two were granted");
    match table.lock(b"b") {
        Some(lock) => {
            assert!(rt; lock.holder() == first_at(1), "the holder of b");
            assert!(rt;
                lock.has(&first_at(2)) && !lock.has(&first_at(3)),
                "who waits for b"
            );
        }
        None => assert!(rt; false, "b is held"),
    }
    assert!(rt;
        standing_of(&first_at(2), b"b", &table) == Standing::Waits,
        "how 2.1 stands"
    );
}

// A name of 64 bytes that begins with a number.
fn long_name(number: u32) -> [u8; 64] {
    let mut name = [0; 64];
    name[..4].copy_from_slice(&number.to_be_bytes());
    name
}

// The state of a table with 10,808 locks, whose names have 64 bytes: 26 bytes, and 97 for each lock.
fn long_state(alloc: Global) -> Result<Vec<u8>, AllocError> {
    let mut state = Vec::from_slice(alloc, EARLY)?;
    state.extend_from_slice(COUNT_1)?;
    state.extend_from_slice(b"\x00\x00\x2a\x38")?;
    for number in 0..10_808u32 {
        state.push(64)?;
        state.extend_from_slice(&long_name(number))?;
        for part in [FIRST, EARLY, COUNT_1, b"\x00\x00\x00\x00"] {
            state.extend_from_slice(part)?;
        }
    }
    Ok(state)
}

// How long the state of a table is after 2.1 asked for these locks.
fn length_after(
    alloc: Global,
    table: &mut LockTable,
    numbers: &[u32],
) -> Result<usize, AllocError> {
    for number in numbers {
        let mut payload = Vec::from_slice(alloc, b"\x01")?;
        payload.extend_from_slice(EARLY)?;
        payload.push(64)?;
        payload.extend_from_slice(&long_name(*number))?;
        table.receive(first_at(2), payload.as_slice())?;
    }
    let mut state = Vec::new(alloc);
    table.get_state(&mut state)?;
    Ok(state.len())
}

// One lock more fits into 1,048,576 bytes. Behind it 77 bytes are left: the requests of 12, at six bytes each, fit.
#[test]
fn what_is_past_the_longest_state_changes_nothing(rt: HostRuntime) {
    let alloc = rt.alloc();
    let state = long_state(alloc).ok().expect(&rt, "a state");
    let mut table = LockTable::opening(alloc).ok().expect(&rt, "a table");
    assert!(rt;
        table.set_state(state.as_slice()) == Ok(true),
        "the state is taken"
    );
    let asked = [0, 1, 2, 3, 4, 5, 6, 7, 8, 9, 10, 11];
    assert!(rt;
        length_after(alloc, &mut table, &[20_000]) == Ok(1_048_499),
        "one lock more"
    );
    assert!(rt;
        length_after(alloc, &mut table, &[20_001]) == Ok(1_048_499),
        "a second one"
    );
    assert!(rt;
        length_after(alloc, &mut table, &asked) == Ok(1_048_571),
        "12 requests"
    );
    assert!(rt;
        length_after(alloc, &mut table, &[12]) == Ok(1_048_571),
        "a 13th"
    );
}
