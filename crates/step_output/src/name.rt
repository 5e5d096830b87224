ghost use Rattle.std.specs.Prelude.{◌≡◌};
ghost use Rattle.step_output.specs.Names.{same_name};

use address::limits::GROUP_NAME;
use std::marker::Model;
use wire_values::GroupName;

/// The name of a group, kept: 1 to `GROUP_NAME` bytes.
#[derive(Drop)]
pub struct OwnedName {
    bytes: [u8; GROUP_NAME],
    len: usize,
}

impl Model for OwnedName {
    ghost use Rattle.std.specs.Prelude.{List, ℕ, take, ◌≡◌, ◌≤◌, true};
    ghost use Rattle.address.specs.declared.limits.TheConstants.{GROUP_NAME};
    ghost use Rattle.wire_values.specs.Names.{is_group_name};

    ghost Value = { List ℕ };

    ghost view = { λ n. take n.len n.bytes };

    ghost invariant = { λ n. (n.len ≤ GROUP_NAME) × (is_group_name (take n.len n.bytes) ≡ true) };
}

impl OwnedName {
    /// A copy of a name. Takes no memory.
    pub fn of(name: &GroupName<'_>) -> OwnedName
        ensures { result ≡ name.now }
    {
        let text = name.as_slice();
        let len = text.len();
        let mut bytes = [0; GROUP_NAME];
        bytes[..len].copy_from_slice(text);
        OwnedName { bytes, len }
    }

    /// The name, lent.
    pub fn lent(&self) -> GroupName<'_>
        ensures { result ≡ self.now }
    {
        GroupName::new(&self.bytes[..self.len]).unwrap()
    }

    /// Whether a packet's group is this one.
    pub fn is(&self, name: &GroupName<'_>) -> bool
        ensures { result ≡ same_name name.now self.now }
    {
        name.as_slice() == &self.bytes[..self.len]
    }
}
