use keyed_state::{contents_of, put_state, size_of_all};
use replicated_map::Held;
use std::alloc::Global;

// By hand from the tables of docs/FORMATS.md: the last version is the second of the view 1@1.1, and `a` has `z`, of that version.
const STATE_OF_A: &[u8] =
    b"\x00\x00\x00\x00\x00\x00\x00\x01\x00\x01\x00\x00\x00\x01\x00\x00\x00\x00\x00\x00\x00\x02\x00\x00\x00\x01\x01a\x00\x00\x00\x00\x00\x00\x00\x01\x00\x01\x00\x00\x00\x01\x00\x00\x00\x00\x00\x00\x00\x02\x00\x01z";

// Whether a state is read, and what is read is of the state's size and is written as the state was.
fn is_written_again(alloc: Global, state: &[u8]) -> bool {
    let Ok(Some(contents)) = contents_of::<Held>(alloc, state) else {
        return false;
    };
    let entries = contents.entries.as_slice();
    let size = size_of_all(entries);
    let mut out = Vec::new(alloc);
    size == state.len()
        && put_state(contents.last, entries, size, &mut out).is_ok()
        && out.as_slice() == state
}

#[test]
fn a_state_is_read_and_written(rt: HostRuntime) {
    assert_eq!(rt; STATE_OF_A.len(), 53);
    assert!(rt; is_written_again(rt.alloc(), STATE_OF_A));
}
