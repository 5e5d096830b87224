//! A lock that is held: who holds it, with which token, and who waits.

ghost use Rattle.std.specs.Prelude.{◌≡◌, ◌<◌, ◌^◌, false, OnOk, OnErr};
ghost use Rattle.view.specs.Members.{stands_in};
ghost use Rattle.lock_table.specs.Locks.{IsLeft, queue, granted, joined_by, passed, left_to, in_place, others, members};

use crate::Token;
use crate::decoding::some_addresses;
use crate::encoding::put_addresses;
use address::{Address, ViewId};
use big_endian::{Reader, put_address, put_u32};
use keyed_state::{Kept, put_token, token_from};
use std::alloc::{AllocError, Global};
use std::marker::Model;
use view::View;

/// A lock that is held: who holds it, the token with which it was granted, and who waits for it, in the order of their requests.
#[derive(Drop)]
pub struct Lock {
    holder: Address,
    token: Token,
    waiters: Vec<Address>,
}

impl Model for Lock {
    ghost use Rattle.lock_table.specs.Forms.{Lock};

    ghost Value = { Lock };

    ghost view = { λ l. record { holder = l.holder; token = l.token; waiters = l.waiters.items } };
}

impl Kept for Lock {
    ghost use Rattle.lock_table.specs.Forms.{lock_form};
    ghost use Rattle.lock_table.specs.EncodingLaws.{lock_laws};

    ghost form = { lock_form };

    ghost laws = { lock_laws };

    fn token(&self) -> Token {
        self.token
    }

    fn size(&self) -> usize {
        32 + 6 * self.waiters.len()
    }

    fn put(&self, out: &mut Vec<u8>) {
        let waiters = self.waiters.as_slice();
        put_address(self.holder, out);
        put_token(self.token, out);
        put_u32(waiters.len() as u32, out);
        put_addresses(waiters, out);
    }

    #[tactic(auto, unfolding(crate::specs::Forms::lock_at))]
    fn read(alloc: Global, from: &mut Reader<'_>) -> Result<Option<Lock>, AllocError> {
        let Some(holder) = from.address() else {
            return Ok(None);
        };
        let Some(token) = token_from(from) else {
            return Ok(None);
        };
        let Some(count) = from.u32(0, u32::MAX) else {
            return Ok(None);
        };
        let Some(waiters) = some_addresses(alloc, count, from)? else {
            return Ok(None);
        };
        Ok(Some(Lock {
            holder,
            token,
            waiters,
        }))
    }
}

impl Lock {
    // A lock of this holder and token, for which those wait.
    pub(crate) fn new(holder: Address, token: Token, waiters: Vec<Address>) -> Lock
        ensures { result ≡ record { holder = holder; token = token; waiters = waiters.items } }
    {
        Lock {
            holder,
            token,
            waiters,
        }
    }

    /// Who holds it.
    pub fn holder(&self) -> Address
        ensures { result ≡ self.now.holder }
    {
        self.holder
    }

    /// The token with which it was granted.
    pub fn token(&self) -> Token
        ensures { result ≡ self.now.token }
    {
        self.token
    }

    /// Who waits for it, in the order of their requests.
    pub fn waiters(&self) -> &[Address]
        ensures { result.now ≡ self.now.waiters }
    {
        self.waiters.as_slice()
    }

    /// Whether one holds it or waits for it.
    pub fn has(&self, address: &Address) -> bool
        ensures { result ≡ stands_in address.now (queue self.now) }
    {
        (*address == self.holder) | self.waiters.contains(address)
    }

    // Has one wait behind the others, who does not stand there. Where memory is refused, the lock is as before.
    pub(crate) fn join(&mut self, address: Address) -> Result<(), AllocError>
        requires { stands_in address (queue self.old) ≡ false }
        ensures ok { OnOk result (self.new ≡ joined_by address self.old) }
        ensures err { OnErr result (self.new ≡ self.old) }
    {
        self.waiters.push(address)?;
        Ok(())
    }

    // Passes it on to the first who waits, with the next token after the last one, if its holder does not stay. Gives the last token.
    fn pass_on(&mut self, stays: bool, view: ViewId, last: Token) -> Token
        requires { last.count < 2 ^ 63 }
        ensures { (self.new, result) ≡ in_place self.old (passed stays view last self.old) }
    {
        if stays || self.waiters.is_empty() {
            return last;
        }
        self.holder = self.waiters.remove(0);
        self.token = last.next(view);
        self.token
    }

    // Lets one go. The lock is free afterwards where that one is its holder still. Gives the last token.
    pub(crate) fn release(&mut self, address: Address, view: ViewId, last: Token) -> Token
        requires { last.count < 2 ^ 63 }
        ensures { IsLeft (others address) (left_to (others address) view last self.old) self.new result }
    {
        self.waiters.retain(|waiter| address != *waiter);
        let stays = address != self.holder;
        self.pass_on(stays, view, last)
    }

    // Lets all go who are no members of a view. The lock is free afterwards where its holder is none. Gives the last token.
    pub(crate) fn roll(&mut self, view: &View, last: Token) -> Token
        requires { last.count < 2 ^ 63 }
        ensures { IsLeft (members view.now) (left_to (members view.now) view.now.id last self.old) self.new result }
    {
        self.waiters.retain(|waiter| view.contains(waiter));
        let stays = view.contains(&self.holder);
        self.pass_on(stays, view.id(), last)
    }
}
