//! Why a text is no archive.
ghost use Rattle.std.specs.Prelude.{◌≡◌};
ghost use Rattle.archivetext.specs.declared.faults.PackError.TheVariants.{AtLine, OutOfMemory};

use archive::AddRefusal;
use std::alloc::{AllocError, AllocFailed};

/// What is wrong with a line.
#[derive(Clone, Copy, Debug, PartialEq, Eq)]
pub enum LineFault {
    /// The first line is not `date YYYY-MM-DD`.
    NotADate,
    NoSuchDate,
    /// The line behind the date is not `plan`, one space and a title.
    NotAPlan,
    /// Neither a title nor four whole numbers of 32 bits with single spaces between them.
    NotARow,
    /// A row past the plan's 4,000th.
    TooManyRows,
    /// The last line does not end in a line feed.
    NotEnded,
    /// The plan whose title stands here may not stand in an archive.
    Refused(AddRefusal),
}

/// The first line at fault, from 1, and what is wrong with it.
#[derive(Clone, Copy, Debug, PartialEq, Eq)]
pub struct PackFault {
    pub line: usize,
    pub why: LineFault,
}

/// Why no archive was packed: the text is none, or memory ran out.
#[derive(Clone, Copy, Debug, PartialEq, Eq)]
pub enum PackError {
    AtLine(PackFault),
    OutOfMemory,
}

impl From<PackFault> for PackError {
    ghost from_gives = { λ fault error. error ≡ AtLine fault };

    fn from(fault: PackFault) -> PackError {
        PackError::AtLine(fault)
    }
}

impl From<AllocError> for PackError {
    ghost from_gives = { λ _ error. error ≡ OutOfMemory };

    fn from(_: AllocError) -> PackError {
        PackError::OutOfMemory
    }
}

impl<T: Drop> From<AllocFailed<T>> for PackError {
    ghost from_gives = { λ _ error. error ≡ OutOfMemory };

    fn from(_: AllocFailed<T>) -> PackError {
        PackError::OutOfMemory
    }
}
