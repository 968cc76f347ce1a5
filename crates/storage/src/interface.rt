//! A source stands for a list of halfsegments (rows); a store is a source that can be changed and has a room.
ghost use Rattle.std.specs.Prelude.{◌≡◌, ℕ, ◌≤◌, List, length};
ghost use Rattle.plane.specs.declared.halfsegment.Halfsegment.{Halfsegment};
ghost use Rattle.storage.specs.declared.interface.InsertRefusal.TheVariants.{NoPlace};
ghost use Rattle.storage.specs.Rows.{insert_number, Inserted, place_number, Removed, row_at};

use plane::Halfsegment;

/// There is no row at the place.
#[derive(Clone, Copy, Debug, PartialEq, Eq)]
pub struct NoSuchPlace;

impl NoSuchPlace {
    pub fn number(self) -> u8
        ensures { result ≡ place_number self }
    {
        // A struct without fields has no discriminant.
        16
    }
}

/// Why a row was not inserted.
#[derive(Clone, Copy, Debug, PartialEq, Eq)]
pub enum InsertRefusal {
    NoPlace(NoSuchPlace),
    NoRoom,
}

impl InsertRefusal {
    pub fn number(self) -> u8
        ensures { result ≡ insert_number self }
    {
        // By cases: a variant with fields has no number of its own.
        match self {
            InsertRefusal::NoPlace(fault) => fault.number(),
            InsertRefusal::NoRoom => 5,
        }
    }
}

impl From<NoSuchPlace> for InsertRefusal {
    ghost from_gives = { λ fault refusal. refusal ≡ NoPlace fault };

    fn from(fault: NoSuchPlace) -> InsertRefusal {
        InsertRefusal::NoPlace(fault)
    }
}

/// Anything that stands for a list of rows, with whatever 32-bit coordinates.
pub trait Source {
    ghost rows: { Self → List Halfsegment };

    fn count(&self) -> usize
        ensures { result ≡ length (rows self.now) };

    /// The row at place `i`, from 0.
    fn row(&self, i: usize) -> Result<Halfsegment, NoSuchPlace>
        ensures { result ≡ row_at (rows self.now) i };
}

/// A source that can be changed. Its room is the largest count, and never changes.
///
/// Each call says so of the store that it leaves, since an interface has no invariant.
pub trait Store: Source {
    ghost room: { Self → ℕ };

    fn room(&self) -> usize
        ensures value { result ≡ room self.now }
        ensures within { length (Self.Source.rows self.now) ≤ room self.now };

    /// The row comes to stand at place `i`; later rows move on.
    fn insert(&mut self, i: usize, row: Halfsegment) -> Result<(), InsertRefusal>
        ensures changed { Inserted (Self.Source.rows self.old) (room self.old) i row result (Self.Source.rows self.new) }
        ensures same { room self.new ≡ room self.old }
        ensures within { length (Self.Source.rows self.new) ≤ room self.new };

    /// The row at place `i` goes; later rows close up.
    fn remove(&mut self, i: usize) -> Result<(), NoSuchPlace>
        ensures changed { Removed (Self.Source.rows self.old) i result (Self.Source.rows self.new) }
        ensures same { room self.new ≡ room self.old }
        ensures within { length (Self.Source.rows self.new) ≤ room self.new };
}
