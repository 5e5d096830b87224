ghost use Rattle.std.specs.Prelude.{◌≡◌, ◌||◌, fold, filter, not, IfOk, OnOk};
ghost use Rattle.std.specs.List.{list_any};
ghost use Rattle.view.specs.Members.{stands_in};
ghost use Rattle.next_view.specs.ViewNotes.{is_later, others_than};
ghost use Rattle.next_view.specs.Candidates.{with_one, is_current};
ghost use Rattle.next_view.specs.Noting.{is_known};

use address::Address;
use std::alloc::{AllocError, Global};
use suspicion::Suspects;

// Whether the first is a later incarnation of the second's node.
pub(crate) fn is_later(one: &Address, other: &Address) -> bool
    ensures { result ≡ is_later one.now other.now }
{
    one.node() == other.node() && other.incarnation() < one.incarnation()
}

// Whether a later incarnation of an address's node stands in a list.
fn has_later(list: &[Address], address: &Address) -> bool
    ensures { result ≡ list_any (λ q. is_later q address.now) list.now }
{
    for other in list {
        if is_later(other, address) {
            return true;
        }
    }
    false
}

// Whether an address, or a later incarnation of its node, stands in a list.
pub(crate) fn is_known(address: &Address, list: &[Address]) -> bool
    ensures { result ≡ is_known address.now list.now }
{
    list.contains(address) || has_later(list, address)
}

fn is_current(me: &Address, list: &[Address], address: &Address) -> bool
    ensures { result ≡ is_current me.now list.now address.now }
{
    *address == *me || !has_later(list, address)
}

// Those of a list of whose node no later incarnation is in it, and `me`.
pub(crate) fn all_current(
    alloc: Global,
    me: &Address,
    list: &[Address],
) -> Result<Vec<Address>, AllocError>
    ensures { IfOk result (λ l. l.items ≡ filter (is_current me.now list.now) list.now) }
{
    let mut left = Vec::new(alloc);
    for address in list {
        if is_current(me, list, address) {
            left.push(*address)?;
        }
    }
    Ok(left)
}

// Whether an address is neither suspected nor there yet.
fn is_unlisted(suspects: &Suspects, found: &[Address], address: &Address) -> bool
    ensures { result ≡ not (stands_in address.now suspects.now || stands_in address.now found.now) }
{
    !(suspects.has(address) | found.contains(address))
}

// Adds those of a list who are not suspected and not there yet.
pub(crate) fn add_all(
    suspects: &Suspects,
    list: &[Address],
    found: &mut Vec<Address>,
) -> Result<(), AllocError>
    ensures { OnOk result (found.new.items ≡ fold (with_one suspects.now) found.old.items list.now) }
{
    for address in list {
        if is_unlisted(suspects, found.as_slice(), address) {
            found.push(*address)?;
        }
    }
    Ok(())
}

// Keeps those of a list who are not in another.
pub(crate) fn keep_others(members: &[Address], list: &mut Vec<Address>)
    ensures { list.new.items ≡ others_than members.now list.old.items }
{
    list.retain(|address| !members.contains(address));
}
