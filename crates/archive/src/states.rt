//! The states of an archive that is written, and what each call refuses.
ghost use Rattle.std.specs.Prelude.{◌≡◌};
ghost use Rattle.archive.specs.declared.states.AddRefusal.TheVariants.{BadPlan};
ghost use Rattle.archive.specs.Writing.{add_number, begin_number, close_number};

use region::CheckRefusal;

/// An archive that can be added to: its length so far and the number of its plans. It has to be spent.
///
/// Mere numbers: the bytes are the caller's, and lent to each call.
pub struct OpenArchive {
    pub(crate) len: usize,
    pub(crate) plans: u16,
}

/// A finished archive, by its length. Nothing can be added to it; the bytes are the caller's.
#[derive(Clone, Copy, Debug, PartialEq, Eq)]
pub struct ClosedArchive {
    pub(crate) len: usize,
}

impl OpenArchive {
    /// Gives the archive up; its bytes stay as they are.
    pub fn abandon(self) {
        let OpenArchive { len: _, plans: _ } = self;
    }
}

impl ClosedArchive {
    /// How many bytes the archive takes.
    pub fn len(self) -> usize
        ensures { result ≡ self.len }
    {
        self.len
    }
}

/// Why no archive was begun. The discriminant is the number that it goes by.
#[derive(Clone, Copy, Debug, PartialEq, Eq)]
pub enum BeginRefusal {
    NoSuchDate = 17,
    /// The bytes are too few for the date.
    NoRoom = 14,
}

impl BeginRefusal {
    pub fn number(self) -> u8
        ensures { result ≡ begin_number self }
    {
        // In each such enum, since a cast asks for the enum itself.
        self as u8
    }
}

#[derive(Clone, Copy, Debug, PartialEq, Eq)]
pub enum AddRefusal {
    BadTitle,
    BadPlan(CheckRefusal),
    /// The bytes are too few, the plan has over 4,000 rows, or the archive has 65,535 plans.
    TooLarge,
}

impl AddRefusal {
    pub fn number(self) -> u8
        ensures { result ≡ add_number self }
    {
        // By cases: a variant with fields has no number of its own.
        match self {
            AddRefusal::BadTitle => 15,
            AddRefusal::BadPlan(refusal) => refusal.number(),
            AddRefusal::TooLarge => 14,
        }
    }
}

impl From<CheckRefusal> for AddRefusal {
    ghost from_gives = { λ refusal fault. fault ≡ BadPlan refusal };

    fn from(refusal: CheckRefusal) -> AddRefusal {
        AddRefusal::BadPlan(refusal)
    }
}

/// The bytes are too few for the last field.
#[derive(Clone, Copy, Debug, PartialEq, Eq)]
pub struct CloseRefusal;

impl CloseRefusal {
    pub fn number(self) -> u8
        ensures { result ≡ close_number self }
    {
        // A struct without fields has no discriminant.
        14
    }
}
