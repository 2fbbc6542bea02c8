ghost use Rattle.std.specs.Prelude.{◌≡◌, ◌≤◌, ◌-◌, ◌↔◌, ℕ, IsSome, IfSome, Some};
ghost use Rattle.std.specs.Fmt.{decimal};

use std::fmt;
use std::marker::Model;

/// A user's number, 1 to 30.
#[derive(Clone, Copy, Debug, PartialEq, Eq, PartialOrd, Ord, Hash)]
pub struct UserNo {
    number: u8,
}

impl Model for UserNo {
    ghost Value = { ℕ };

    ghost view = { λ u. u.number };

    ghost invariant = { λ u. (1 ≤ u.number) × (u.number ≤ 30) };

    ghost inverse = { λ n. record { number = n } };
}

impl UserNo {
    /// The user of this number.
    pub fn new(n: u8) -> Option<UserNo>
        ensures range { IsSome result ↔ ((1 ≤ n) × (n ≤ 30)) }
        ensures value { IfSome result (λ user. user ≡ n) }
    {
        if 1 <= n && n <= 30 {
            Some(UserNo { number: n })
        } else {
            None
        }
    }

    /// The user of a number that is known to be in range.
    pub fn of(n: u8) -> UserNo
        requires some { 1 ≤ n }
        requires few { n ≤ 30 }
        ensures { result ≡ n }
    {
        UserNo { number: n }
    }

    /// The number itself.
    pub fn number(self) -> u8
        ensures value { result ≡ self }
        ensures range { (1 ≤ result) × (result ≤ 30) }
    {
        self.number
    }

    /// The user's place in a list of all users, the first of which is user 1.
    pub fn index(self) -> usize
        ensures value { result ≡ self - 1 }
        ensures range { (1 ≤ self) × (self ≤ 30) }
    {
        self.number as usize - 1
    }
}

impl fmt::Display for UserNo {
    ghost output = { λ user. Some (decimal user) };

    fn fmt<W: fmt::Write>(&self, f: &mut fmt::Formatter<W>) -> fmt::Result {
        let number = self.number();
        write!(f, "{number}")
    }
}

/// A console's number, 1 to 32.
#[derive(Clone, Copy, Debug, PartialEq, Eq, PartialOrd, Ord, Hash)]
pub struct ConsoleNo {
    number: u8,
}

impl Model for ConsoleNo {
    ghost Value = { ℕ };

    ghost view = { λ c. c.number };

    ghost invariant = { λ c. (1 ≤ c.number) × (c.number ≤ 32) };

    ghost inverse = { λ n. record { number = n } };
}

impl ConsoleNo {
    /// The console of this number.
    pub fn new(n: u8) -> Option<ConsoleNo>
        ensures range { IsSome result ↔ ((1 ≤ n) × (n ≤ 32)) }
        ensures value { IfSome result (λ console. console ≡ n) }
    {
        if 1 <= n && n <= 32 {
            Some(ConsoleNo { number: n })
        } else {
            None
        }
    }

    /// The number itself.
    pub fn number(self) -> u8
        ensures value { result ≡ self }
        ensures range { (1 ≤ result) × (result ≤ 32) }
    {
        self.number
    }

    /// The console's place in a list of all consoles, the first of which is console 1.
    pub fn index(self) -> usize
        ensures value { result ≡ self - 1 }
        ensures range { (1 ≤ self) × (self ≤ 32) }
    {
        self.number as usize - 1
    }
}

impl fmt::Display for ConsoleNo {
    ghost output = { λ console. Some (decimal console) };

    fn fmt<W: fmt::Write>(&self, f: &mut fmt::Formatter<W>) -> fmt::Result {
        let number = self.number();
        write!(f, "{number}")
    }
}
