ghost use Rattle.std.specs.Prelude.{◌≡◌, IfOk};

use std::alloc::{AllocError, Global};
use std::marker::Model;
use std::rc::Rc;

/// Who holds bytes.
#[derive(Debug, Drop)]
enum Held {
    Alone(Vec<u8>),
    Shared(Rc<Vec<u8>>),
}

/// Bytes, which contracts see as their list: a payload, or a state. Held alone, or shared by several that do not change them.
#[derive(Debug)]
pub struct Bytes {
    held: Held,
}

impl Drop for Bytes {
    fn drop(self) {
        let Bytes { held: _ } = self;
    }
}

impl Model for Bytes {
    ghost use Rattle.std.specs.Prelude.{List, ℕ};
    ghost use Rattle.address.specs.HeldBytes.{bytes_held};

    ghost Value = { List ℕ };

    ghost view = { λ b. bytes_held b.held };
}

impl Bytes {
    /// The bytes of a vector. Takes no memory.
    pub fn from_vec(items: Vec<u8>) -> Bytes
        ensures { result ≡ items.items }
    {
        Bytes {
            held: Held::Alone(items),
        }
    }

    /// A copy of a slice.
    pub fn from_slice(alloc: Global, items: &[u8]) -> Result<Bytes, AllocError>
        ensures { IfOk result (λ b. b ≡ items.now) }
    {
        Ok(Bytes {
            held: Held::Alone(Vec::from_slice(alloc, items)?),
        })
    }

    /// A copy of a slice, whose own copies are shared with it.
    pub fn shared_from(alloc: Global, items: &[u8]) -> Result<Bytes, AllocError>
        ensures { IfOk result (λ b. b ≡ items.now) }
    {
        let items = Vec::from_slice(alloc, items)?;
        Ok(Bytes {
            held: Held::Shared(Rc::new(alloc, items)?),
        })
    }

    /// A copy of it. Bytes that are shared are not copied, but have one more holder.
    pub fn copied(&self, alloc: Global) -> Result<Bytes, AllocError>
        ensures { IfOk result (λ b. b ≡ self.now) }
    {
        match &self.held {
            Held::Alone(items) => Bytes::from_slice(alloc, items.as_slice()),
            Held::Shared(items) => Ok(Bytes {
                held: Held::Shared(items.clone()?),
            }),
        }
    }

    /// Its bytes in order.
    pub fn as_slice(&self) -> &[u8]
        ensures { result.now ≡ self.now }
    {
        match &self.held {
            Held::Alone(items) => items.as_slice(),
            Held::Shared(items) => items.as_slice(),
        }
    }
}
