ghost use Rattle.std.specs.Prelude.{ℕ, refl};
ghost use Rattle.std.proofs.Common.{inl, inr, arith};
ghost use Rattle.chat_log.specs.Sizes.{IsSize};
ghost use Rattle.chat_log.specs.declared.TheConstants as constants;

use std::fmt::Debug;

/// How many lines a chat keeps, and how wide their number is written (docs/RECEIVERS.md, "The chat's state"). The longest
/// state of a chat of this size has at most `STATE` bytes (`limits`).
pub trait ChatSize: Drop {
    /// The most lines that a chat keeps; their number fits into `WIDTH` bytes.
    const LINES: usize;

    /// In how many bytes the number of lines is written, 1 or 2.
    const WIDTH: usize;

    ghost LINES: { ℕ };

    ghost WIDTH: { ℕ };

    ghost fits: { IsSize LINES WIDTH };
}

/// The size of a `ChatLog`: `LINES` lines, their number in one byte.
#[derive(Drop)]
pub struct Short;

impl ChatSize for Short {
    const LINES: usize = crate::LINES;

    const WIDTH: usize = 1;

    ghost LINES = { constants.LINES };

    ghost WIDTH = { 1 };

    ghost fits = { record { wide = inl refl; fits = omega arith; short = omega arith } };
}

/// The size of a `LongChat`: `LONG_LINES` lines, their number in two bytes.
#[derive(Drop)]
pub struct Long;

impl ChatSize for Long {
    const LINES: usize = crate::LONG_LINES;

    const WIDTH: usize = 2;

    ghost LINES = { constants.LONG_LINES };

    ghost WIDTH = { 2 };

    ghost fits = { record { wide = inr refl; fits = omega arith; short = omega arith } };
}
