ghost use Rattle.std.specs.Prelude.{◌≡◌};
ghost use Rattle.wire_values.specs.Reading.{error_number};

/// Why bytes are no packet: the first field that fails, from left to right.
#[derive(Clone, Copy, Debug, PartialEq, Eq)]
pub enum WireError {
    /// 20: fewer bytes remain than the field has.
    Short,
    /// 21: the bytes do not begin with `VS`.
    NotOurs,
    /// 22: another version.
    Version,
    /// 23: no kind has this number.
    Kind,
    /// 24: a length that is out of range, or a datagram that is too long.
    Length,
    /// 25: a value that is out of range.
    Value,
    /// 26: a byte stands behind the last field.
    Trailing,
}

impl WireError {
    /// Its number, 20 to 26.
    pub fn number(self) -> u8
        ensures { result ≡ error_number self }
    {
        match self {
            WireError::Short => 20,
            WireError::NotOurs => 21,
            WireError::Version => 22,
            WireError::Kind => 23,
            WireError::Length => 24,
            WireError::Value => 25,
            WireError::Trailing => 26,
        }
    }
}
