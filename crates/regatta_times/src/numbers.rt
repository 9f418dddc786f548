//! The small numbers of a corrected time: elapsed seconds, and what ratings are made of.

ghost use Rattle.std.specs.Prelude.{◌≡◌, ℕ, ◌≤◌, nat_le, ◌&&◌, if◌then◌else◌, Some, None};

use std::marker::Model;

/// An elapsed time in whole seconds, from 0 to 999,999: finish minus start.
#[derive(Clone, Copy, Debug, PartialEq, Eq, PartialOrd, Ord, Hash)]
pub struct Elapsed {
    seconds: u32,
}

impl Model for Elapsed {
    ghost Value = { ℕ };

    ghost view = { λ time. time.seconds };

    ghost invariant = { λ time. time.seconds ≤ 999999 };

    ghost inverse = { λ n. record { seconds = n } };
}

impl Elapsed {
    /// An elapsed time in seconds; `None` above 999,999.
    pub fn new(seconds: u32) -> Option<Elapsed>
        ensures { result ≡ (if nat_le seconds 999999 then Some seconds else None) }
    {
        if seconds <= 999_999 {
            Some(Elapsed { seconds })
        } else {
            None
        }
    }

    /// An elapsed time whose caller knows that it is in range.
    pub(crate) fn of(seconds: u32) -> Elapsed
        requires { seconds ≤ 999999 }
        ensures { result ≡ seconds }
    {
        Elapsed { seconds }
    }

    /// How many seconds, from 0 to 999,999.
    pub fn get(self) -> u32
        ensures value { result ≡ self }
        ensures range { self ≤ 999999 }
    {
        self.seconds
    }
}

/// A time-correction factor (TCF) in ten-thousandths, from 1 to 99,999: 9,850 is 0.985.
#[derive(Clone, Copy, Debug, PartialEq, Eq, PartialOrd, Ord, Hash)]
pub struct Factor {
    parts: u32,
}

impl Model for Factor {
    ghost Value = { ℕ };

    ghost view = { λ factor. factor.parts };

    ghost invariant = { λ factor. (1 ≤ factor.parts) × (factor.parts ≤ 99999) };

    ghost inverse = { λ n. record { parts = n } };
}

impl Factor {
    /// A factor in ten-thousandths; `None` where they aren't 1 to 99,999.
    pub fn new(parts: u32) -> Option<Factor>
        ensures { result ≡ (if nat_le 1 parts && nat_le parts 99999 then Some parts else None) }
    {
        if 1 <= parts && parts <= 99_999 {
            Some(Factor { parts })
        } else {
            None
        }
    }

    /// How many ten-thousandths, from 1 to 99,999.
    pub fn get(self) -> u32
        ensures value { result ≡ self }
        ensures range { (1 ≤ self) × (self ≤ 99999) }
    {
        self.parts
    }
}

/// A Portsmouth number, from 1 to 9,999. A slower boat has a higher one.
#[derive(Clone, Copy, Debug, PartialEq, Eq, PartialOrd, Ord, Hash)]
pub struct PortsmouthNumber {
    number: u32,
}

impl Model for PortsmouthNumber {
    ghost Value = { ℕ };

    ghost view = { λ number. number.number };

    ghost invariant = { λ number. (1 ≤ number.number) × (number.number ≤ 9999) };

    ghost inverse = { λ n. record { number = n } };
}

impl PortsmouthNumber {
    /// This number; `None` where it isn't 1 to 9,999.
    pub fn new(number: u32) -> Option<PortsmouthNumber>
        ensures { result ≡ (if nat_le 1 number && nat_le number 9999 then Some number else None) }
    {
        if 1 <= number && number <= 9999 {
            Some(PortsmouthNumber { number })
        } else {
            None
        }
    }

    /// The number, from 1 to 9,999.
    pub fn get(self) -> u32
        ensures value { result ≡ self }
        ensures range { (1 ≤ self) × (self ≤ 9999) }
    {
        self.number
    }
}

/// A time allowance in hundredths of a second a nautical mile, from 0 to 99,999: 12,050 is 120.5
/// seconds a mile.
#[derive(Clone, Copy, Debug, PartialEq, Eq, PartialOrd, Ord, Hash)]
pub struct Allowance {
    hundredths: u32,
}

impl Model for Allowance {
    ghost Value = { ℕ };

    ghost view = { λ allowance. allowance.hundredths };

    ghost invariant = { λ allowance. allowance.hundredths ≤ 99999 };

    ghost inverse = { λ n. record { hundredths = n } };
}

impl Allowance {
    /// An allowance in hundredths of a second a mile; `None` above 99,999.
    pub fn new(hundredths: u32) -> Option<Allowance>
        ensures { result ≡ (if nat_le hundredths 99999 then Some hundredths else None) }
    {
        if hundredths <= 99_999 {
            Some(Allowance { hundredths })
        } else {
            None
        }
    }

    /// How many hundredths of a second a mile, from 0 to 99,999.
    pub fn get(self) -> u32
        ensures value { result ≡ self }
        ensures range { self ≤ 99999 }
    {
        self.hundredths
    }
}

/// The length of a course in hundredths of a nautical mile, from 1 to 99,999: 625 is 6.25 miles.
#[derive(Clone, Copy, Debug, PartialEq, Eq, PartialOrd, Ord, Hash)]
pub struct Distance {
    hundredths: u32,
}

impl Model for Distance {
    ghost Value = { ℕ };

    ghost view = { λ distance. distance.hundredths };

    ghost invariant = { λ distance. (1 ≤ distance.hundredths) × (distance.hundredths ≤ 99999) };

    ghost inverse = { λ n. record { hundredths = n } };
}

impl Distance {
    /// A distance in hundredths of a mile; `None` where they aren't 1 to 99,999.
    pub fn new(hundredths: u32) -> Option<Distance>
        ensures { result ≡ (if nat_le 1 hundredths && nat_le hundredths 99999
            then Some hundredths else None) }
    {
        if 1 <= hundredths && hundredths <= 99_999 {
            Some(Distance { hundredths })
        } else {
            None
        }
    }

    /// How many hundredths of a mile, from 1 to 99,999.
    pub fn get(self) -> u32
        ensures value { result ≡ self }
        ensures range { (1 ≤ self) × (self ≤ 99999) }
    {
        self.hundredths
    }
}
