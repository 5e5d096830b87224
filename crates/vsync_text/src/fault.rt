ghost use Rattle.std.specs.Prelude.{◌≡◌};
ghost use Rattle.vsync_text.specs.Script.{fault_number};
ghost use Rattle.vsync_text.specs.Texts.{unread_at};

use std::alloc::AllocError;
use thiserror::Error;

/// What is wrong with a line.
#[derive(Clone, Copy, Debug, PartialEq, Eq)]
pub enum Fault {
    /// 40: the line begins with no known word.
    UnknownWord,
    /// 41: a field is not of its form or range, or there is one too many.
    BadNumber,
    /// 42: a field is missing.
    MissingField,
    /// 43: the line has more bytes than it may: `SCRIPT_LINE` in a script, `TRACE_LINE` in a trace.
    LineTooLong,
}

impl Fault {
    /// Its number, 40 to 43.
    pub fn number(self) -> u8
        ensures { result ≡ fault_number self }
    {
        match self {
            Fault::UnknownWord => 40,
            Fault::BadNumber => 41,
            Fault::MissingField => 42,
            Fault::LineTooLong => 43,
        }
    }
}

/// Why a script, or the text of a trace, was not read.
#[derive(Debug, Drop, Error)]
pub enum Unread {
    /// Its first fault, and the number of that line, from 1.
    #[error("line {line} is wrong")]
    Fault { line: u64, fault: Fault },
    /// Memory was refused.
    #[error("no memory")]
    Memory,
}

/// Why a line was not heard.
#[derive(Drop)]
pub enum Unheard {
    /// What is wrong with it.
    Fault(Fault),
    /// Memory was refused.
    Memory,
}

impl Unheard {
    /// Why the text is not read whose line of this number was not heard.
    pub fn at(self, line: u64) -> Unread
        ensures { result ≡ unread_at line self }
    {
        match self {
            Unheard::Fault(fault) => Unread::Fault { line, fault },
            Unheard::Memory => Unread::Memory,
        }
    }
}

impl From<AllocError> for Unheard {
    ghost use Rattle.std.specs.Prelude.{◌≡◌};
    ghost use Rattle.vsync_text.specs.declared.fault.Unheard.TheVariants.{Memory};

    ghost from_gives = { λ _ e. e ≡ Memory };

    fn from(_error: AllocError) -> Unheard {
        Unheard::Memory
    }
}
