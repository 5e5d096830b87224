//! What is held, and how commands change it.

ghost use Rattle.std.specs.Prelude.{◌≡◌, false, length, IfOk, OnOk, OnErr};
ghost use Rattle.address.specs.Ids.{IsAddress};
ghost use Rattle.keyed_state.specs.Entries.{entry_of};
ghost use Rattle.lock_table.specs.Locks.{IsTable, within, acquired, released, rolled, members, is_used_up, table_of, granted, holder_in};
ghost use Rattle.lock_table.specs.StepLaws.{MayRoll};
ghost use Rattle.std.specs.List.{filter};

use crate::{Lock, Token};
use address::limits::STATE;
use address::{Address, Bytes, ViewId};
use keyed_state::{KeyBytes, KeyedEntry, Place, find, known_view_id, size_of_all};
use std::alloc::{AllocError, Global};
use view::View;

// The last token that was granted, and the locks that are held, their names rising.
#[derive(Drop)]
pub(crate) struct Held {
    pub(crate) last: Token,
    pub(crate) entries: Vec<KeyedEntry<Lock>>,
}

// What a program holds as an address is one. It does nothing; its clause is a fact for proofs.
fn known_address(address: Address)
    ensures { IsAddress address }
{
    let _node = address.node().number();
    let _incarnation = address.incarnation();
}

// The entry of a lock that is granted, and that nobody waits for.
fn granted(
    alloc: Global,
    name: &KeyBytes<'_>,
    holder: Address,
    token: &Token,
) -> Result<KeyedEntry<Lock>, AllocError>
    ensures { IfOk result (λ e. e ≡ entry_of name.now (granted holder token.now)) }
{
    let key = Bytes::from_slice(alloc, name.as_slice())?;
    Ok(KeyedEntry {
        key,
        value: Lock::new(holder, *token, Vec::new(alloc)),
    })
}

// Lets all go, at each lock, who are no members of a view. A lock that became free names its former holder still. Gives the last token.
fn roll_each(entries: &mut [KeyedEntry<Lock>], view: &View, last: Token) -> Token
    requires { MayRoll view.now.id last entries.old }
    ensures len { length entries.new ≡ length entries.old }
    ensures rolls { table_of result (filter (holder_in (members view.now)) entries.new) ≡ rolled (members view.now) view.now.id last entries.old }
{
    let mut last = last;
    for entry in entries.iter_mut() {
        last = entry.value.roll(view, last);
    }
    last
}

impl Held {
    // Has one hold a lock or wait for it. Where memory is refused, all is as before.
    pub(crate) fn acquire(
        &mut self,
        from: Address,
        view: ViewId,
        name: &KeyBytes<'_>,
    ) -> Result<(), AllocError>
        requires table { IsTable (table_of self.old.last self.old.entries.items) }
        requires numbers { is_used_up view (table_of self.old.last self.old.entries.items) ≡ false }
        ensures ok { OnOk result (table_of self.new.last self.new.entries.items ≡ within (table_of self.old.last self.old.entries.items) (acquired from view name.now (table_of self.old.last self.old.entries.items))) }
        ensures err { OnErr result (table_of self.new.last self.new.entries.items ≡ table_of self.old.last self.old.entries.items) }
        ensures kept { IsTable (table_of self.new.last self.new.entries.items) }
    {
        known_address(from);
        known_view_id(view);
        let size = size_of_all(self.entries.as_slice());
        match find(self.entries.as_slice(), name.as_slice()) {
            Place::Held(i) => {
                let lock = &mut self.entries[i].value;
                if lock.has(&from) {
                    return Ok(());
                }
                if size + 6 <= STATE {
                    lock.join(from)?;
                }
                Ok(())
            }
            Place::Free(i) => {
                if size + 33 + name.as_slice().len() <= STATE {
                    let token = self.last.next(view);
                    let entry = granted(*self.entries.allocator(), name, from, &token)?;
                    self.entries.insert(i, entry)?;
                    self.last = token;
                }
                Ok(())
            }
        }
    }

    // Has one hold a lock no more, and not wait for it.
    pub(crate) fn release(&mut self, from: Address, view: ViewId, name: &KeyBytes<'_>)
        requires table { IsTable (table_of self.old.last self.old.entries.items) }
        requires numbers { is_used_up view (table_of self.old.last self.old.entries.items) ≡ false }
        ensures kept { IsTable (table_of self.new.last self.new.entries.items) }
        ensures makes { table_of self.new.last self.new.entries.items ≡ released from view name.now (table_of self.old.last self.old.entries.items) }
    {
        known_view_id(view);
        if let Place::Held(i) = find(self.entries.as_slice(), name.as_slice()) {
            let lock = &mut self.entries[i].value;
            self.last = lock.release(from, view, self.last);
            if lock.holder() == from {
                self.entries.remove(i);
            }
        }
    }

    // Has only members of a view hold locks and wait for them.
    pub(crate) fn roll(&mut self, view: &View)
        requires table { IsTable (table_of self.old.last self.old.entries.items) }
        requires numbers { is_used_up view.now.id (table_of self.old.last self.old.entries.items) ≡ false }
        ensures kept { IsTable (table_of self.new.last self.new.entries.items) }
        ensures makes { table_of self.new.last self.new.entries.items ≡ rolled (members view.now) view.now.id self.old.last self.old.entries.items }
    {
        known_view_id(view.id());
        self.last = roll_each(self.entries.as_mut_slice(), view, self.last);
        self.entries
            .retain(|entry| view.contains(&entry.value.holder()));
    }
}
