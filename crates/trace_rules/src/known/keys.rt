ghost use Rattle.std.specs.Prelude.{◌≡◌};
ghost use Rattle.trace_rules.specs.Keys.{packed};

use address::{Address, ViewId};
use std::hash::{Hash, Hasher};

/// A member in a view.
#[derive(Clone, Copy, PartialEq, Eq)]
pub struct MemberInView {
    pub member: Address,
    pub view: ViewId,
}

/// An address as one number.
fn packed(address: Address) -> u64
    ensures { result ≡ packed address }
{
    u64::from(address.node().number()) * 4_294_967_296 + u64::from(address.incarnation())
}

impl Hash for MemberInView {
    ghost use Rattle.std.specs.Prelude.{◌++◌};
    ghost use Rattle.std.specs.Hash as fed;
    ghost use Rattle.std.specs.Cmp.Rules.{comparing, hashing};
    ghost use Rattle.std.proofs.Common.{rules};
    ghost use Rattle.trace_rules.specs.Keys.{packed};

    ghost hash_input = { λ x. fed.u64 x.view.counter ++ fed.u64 (packed x.view.creator) ++ fed.u64 (packed x.member) };

    ghost respects_eq = { Prim.search (hashing, rules) };

    fn hash<H: Hasher>(&self, state: &mut H) {
        state.write_u64(self.view.counter());
        state.write_u64(packed(self.view.creator()));
        state.write_u64(packed(self.member));
    }
}

/// A change of view: from one to the next.
#[derive(Clone, Copy, PartialEq, Eq, Hash)]
pub struct ViewChange {
    pub to: ViewId,
    pub from: ViewId,
}
