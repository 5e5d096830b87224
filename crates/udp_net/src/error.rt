ghost use Rattle.std.specs.Prelude.{◌≡◌};
ghost use Rattle.udp_net.specs.declared.error.SettingsError.TheVariants as settings;
ghost use Rattle.udp_net.specs.declared.error.BindError.TheVariants as bind;
ghost use Rattle.udp_net.specs.Errors.{settings_number, bind_number};

use address::limits::Refusal;
use std::alloc::AllocError;

/// Why a text gives no settings.
#[derive(Clone, Copy, Debug, thiserror::Error)]
pub enum SettingsError {
    /// 50: it is no document of settings.
    #[error("no settings")]
    Config,
    /// 7: memory was refused.
    #[error("no memory")]
    Memory,
}

impl From<AllocError> for SettingsError {
    ghost from_gives = { λ _ e. e ≡ settings.Memory };

    fn from(_refused: AllocError) -> SettingsError {
        SettingsError::Memory
    }
}

impl SettingsError {
    /// Its number, 50 or 7.
    pub fn number(self) -> u8
        ensures { result ≡ settings_number self }
    {
        match self {
            SettingsError::Config => 50,
            SettingsError::Memory => Refusal::Memory.number(),
        }
    }
}

/// Why a node has no socket, or no hosts.
#[derive(Clone, Copy, Debug, PartialEq, Eq, thiserror::Error)]
pub enum BindError {
    /// 50: the settings do not list the node.
    #[error("the settings do not list the node")]
    Config,
    /// 51: its socket cannot be bound, as where its port is taken; or a host's name has no address.
    #[error("the socket cannot be bound")]
    Bind,
    /// 7: memory was refused.
    #[error("no memory")]
    Memory,
}

impl From<AllocError> for BindError {
    ghost from_gives = { λ _ e. e ≡ bind.Memory };

    fn from(_refused: AllocError) -> BindError {
        BindError::Memory
    }
}

impl BindError {
    /// Its number, 50, 51 or 7.
    pub fn number(self) -> u8
        ensures { result ≡ bind_number self }
    {
        match self {
            BindError::Config => 50,
            BindError::Bind => 51,
            BindError::Memory => Refusal::Memory.number(),
        }
    }
}

/// A net failed where it was asked for a datagram.
#[derive(Clone, Copy, Debug, PartialEq, Eq, thiserror::Error)]
pub enum Fault {
    /// 52: the receive failed.
    #[error("a receive failed")]
    Receive,
}

impl Fault {
    /// Its number, 52.
    pub fn number(self) -> u8
        ensures { result ≡ 52 }
    {
        match self {
            Fault::Receive => 52,
        }
    }
}
