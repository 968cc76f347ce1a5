//! What check refuses with. Each refusal holds what it names, and goes by a number.
ghost use Rattle.std.specs.Prelude.{◌≡◌};
ghost use Rattle.region.specs.Check.{check_number, fault_number};

use plane::Point;

/// What is wrong with one row by itself. The discriminant is the number that it goes by.
#[derive(Clone, Copy, Debug, PartialEq, Eq)]
pub enum RowFault {
    OutOfRange = 1,
    NoLength = 2,
}

impl RowFault {
    pub fn number(self) -> u8
        ensures { result ≡ fault_number self }
    {
        // In each such enum, since a cast asks for the enum itself.
        self as u8
    }
}

/// The first thing that is wrong with the rows of a plan: at a row's place, or at a corner.
#[derive(Clone, Copy, Debug, PartialEq, Eq)]
pub enum CheckRefusal {
    BadRow(usize, RowFault),
    Unsorted(usize),
    NoTwin(usize),
    Improper(usize),
    Unclosed(Point),
}

impl CheckRefusal {
    pub fn number(self) -> u8
        ensures { result ≡ check_number self }
    {
        // By cases: a variant with fields has no number of its own.
        match self {
            CheckRefusal::BadRow(_, fault) => fault.number(),
            CheckRefusal::Unsorted(_) => 7,
            CheckRefusal::NoTwin(_) => 8,
            CheckRefusal::Improper(_) => 4,
            CheckRefusal::Unclosed(_) => 9,
        }
    }
}
