ghost use Rattle.std.specs.Prelude.{◌≡◌, ◌≤◌, ◌+◌};
ghost use Rattle.std.specs.Option.{SomeIff};

use address::limits::{GREATEST_NUMBER, WINDOW};
use std::marker::Model;

/// A number from 1 to `GREATEST_NUMBER`: of a message, of a place in a view's order, or a view's counter.
#[derive(Clone, Copy)]
pub struct Number {
    value: u64,
}

impl Model for Number {
    ghost use Rattle.std.specs.Prelude.{ℕ, ◌≤◌};
    ghost use Rattle.address.specs.declared.limits.TheConstants.{GREATEST_NUMBER};

    ghost Value = { ℕ };

    ghost view = { λ n. n.value };

    ghost invariant = { λ n. (1 ≤ n.value) × (n.value ≤ GREATEST_NUMBER) };

    ghost inverse = { λ n. record { value = n } };
}

impl Number {
    /// The number of a value from 1 to `GREATEST_NUMBER`; `None` for another.
    pub fn new(value: u64) -> Option<Number>
        ensures { SomeIff result ((1 ≤ value) × (value ≤ GREATEST_NUMBER)) value }
    {
        if (value == 0) | (value > GREATEST_NUMBER) {
            return None;
        }
        Some(Number { value })
    }

    /// Its value, 1 to `GREATEST_NUMBER`.
    pub fn get(self) -> u64
        ensures value { result ≡ self }
        ensures in_range { (1 ≤ result) × (result ≤ GREATEST_NUMBER) }
    {
        self.value
    }
}

/// A count of messages, 0 to `GREATEST_NUMBER`.
#[derive(Clone, Copy, PartialEq, Eq, PartialOrd, Ord)]
pub struct Count {
    count: u64,
}

impl Model for Count {
    ghost use Rattle.std.specs.Prelude.{ℕ, ◌≤◌};
    ghost use Rattle.address.specs.declared.limits.TheConstants.{GREATEST_NUMBER};

    ghost Value = { ℕ };

    ghost view = { λ n. n.count };

    ghost invariant = { λ n. n.count ≤ GREATEST_NUMBER };

    ghost inverse = { λ n. record { count = n } };
}

impl Count {
    /// No message.
    pub fn zero() -> Count
        ensures { result ≡ 0 }
    {
        Count { count: 0 }
    }

    /// The count of a value up to `GREATEST_NUMBER`; `None` for another.
    pub fn new(value: u64) -> Option<Count>
        ensures { SomeIff result (value ≤ GREATEST_NUMBER) value }
    {
        if value > GREATEST_NUMBER {
            return None;
        }
        Some(Count { count: value })
    }

    /// Its value, up to `GREATEST_NUMBER`.
    pub fn get(self) -> u64
        ensures value { result ≡ self }
        ensures in_range { result ≤ GREATEST_NUMBER }
    {
        self.count
    }
}

/// Numbers of a view's order that are missing, from the first to the last of them.
#[derive(Clone, Copy)]
pub struct Missing {
    first: Number,
    last: Number,
}

impl Model for Missing {
    ghost use Rattle.std.specs.Prelude.{◌≤◌};
    ghost use Rattle.wire_values.specs.Values.{Missing};

    ghost Value = { Missing };

    ghost view = { λ m. record { first = m.first; last = m.last } };

    ghost invariant = { λ m. m.first ≤ m.last };

    ghost inverse = { λ m. record { first = m.first; last = m.last } };
}

impl Missing {
    /// The numbers from the first to the last; `None` where the last is less than the first.
    pub fn new(first: Number, last: Number) -> Option<Missing>
        ensures { SomeIff result (first ≤ last) (record { first = first; last = last }) }
    {
        if first.get() > last.get() {
            return None;
        }
        Some(Missing { first, last })
    }

    /// The first that is missing.
    pub fn first(self) -> Number
        ensures value { result ≡ self.first }
        ensures in_order { self.first ≤ self.last }
    {
        self.first
    }

    /// The last that is missing.
    pub fn last(self) -> Number
        ensures { result ≡ self.last }
    {
        self.last
    }
}

/// How far the order of a view has come: the highest number, and the stable one, up to which all members
/// have it. They lie at most the window apart.
#[derive(Clone, Copy)]
pub struct Progress {
    highest: Count,
    stable: Count,
}

impl Model for Progress {
    ghost use Rattle.std.specs.Prelude.{◌≤◌, ◌+◌};
    ghost use Rattle.address.specs.declared.limits.TheConstants.{WINDOW};
    ghost use Rattle.wire_values.specs.Values.{Progress};

    ghost Value = { Progress };

    ghost view = { λ p. record { highest = p.highest; stable = p.stable } };

    ghost invariant = { λ p. (p.stable ≤ p.highest) × (p.highest ≤ p.stable + WINDOW) };

    ghost inverse = { λ p. record { highest = p.highest; stable = p.stable } };
}

impl Progress {
    /// The two counts; `None` where the stable one is above the highest or more than the window below it.
    pub fn new(highest: Count, stable: Count) -> Option<Progress>
        ensures { SomeIff result ((stable ≤ highest) × (highest ≤ stable + WINDOW)) (record { highest = highest; stable = stable }) }
    {
        if (stable.get() > highest.get()) | (highest.get() > stable.get() + WINDOW) {
            return None;
        }
        Some(Progress { highest, stable })
    }

    /// The highest number of the order.
    pub fn highest(self) -> Count
        ensures value { result ≡ self.highest }
        ensures near { (self.stable ≤ self.highest) × (self.highest ≤ self.stable + WINDOW) }
    {
        self.highest
    }

    /// The number up to which all members have the order.
    pub fn stable(self) -> Count
        ensures { result ≡ self.stable }
    {
        self.stable
    }
}
