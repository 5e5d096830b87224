ghost use Rattle.std.specs.Prelude.{◌≡◌};
ghost use Rattle.membership.specs.declared.stop.Stop.TheVariants.{Memory};

use std::alloc::AllocError;

/// Why a member ends in a step that it does not finish.
#[derive(Clone, Copy)]
pub enum Stop {
    /// Memory was refused.
    Memory,
    /// It would enter a view with a state that its receiver cannot read.
    Unreadable,
}

impl From<AllocError> for Stop {
    ghost from_gives = { λ _ e. e ≡ Memory };

    fn from(_refused: AllocError) -> Stop {
        Stop::Memory
    }
}
