//! The stores over lent memory: rows in a lent list of rows, and rows in lent bytes.
ghost use Rattle.std.specs.Prelude.{◌≡◌, ◌≤◌, ◌/◌, min, [], length};
ghost use Rattle.storage.specs.Entries.{entries, KeepsMemory, lender, limit, whole};
ghost use Rattle.storage.specs.Rows.{Inserted, Removed};

use crate::bytes::ROW_BYTES;
use crate::entry::Entry;
use crate::interface::{InsertRefusal, NoSuchPlace, Source, Store};
use crate::kept::Kept;
use plane::Halfsegment;

/// The most rows that a store has room for.
pub const MOST_ROWS: usize = 4000;

/// Rows in lent memory of whatever entries, of which a row takes `N`.
#[derive(Drop)]
pub struct RowStore<'a, E, const N: usize> {
    kept: Kept<'a, E, N>,
}

/// Rows in a lent list of rows.
pub type RecordStore<'a> = RowStore<'a, Halfsegment, 1>;

/// Rows in lent bytes: dominating x and y, far x and y, four bytes each, two's complement, highest first.
pub type ByteStore<'a> = RowStore<'a, u8, ROW_BYTES>;

impl<'a, E: Entry<N>, const N: usize> RowStore<'a, E, N> {
    /// An empty store in the memory; its room is what fits, at most 4,000 rows.
    pub fn new(items: &'a mut [E]) -> RowStore<'a, E, N>
        ensures empty { entries result.kept ≡ [] }
        ensures limit { limit result.kept ≡ min 4000 (length items.old / N) }
        ensures same { whole result.kept ≡ items.old }
        ensures lender { lender result.kept ≡ items.entry.ghost_name }
    {
        RowStore {
            kept: Kept::new(items, MOST_ROWS),
        }
    }
}

impl<'a, E: Entry<N>, const N: usize> Source for RowStore<'a, E, N> {
    ghost rows = { λ s. E.rows_of (entries s.kept) };

    fn count(&self) -> usize {
        self.kept.len()
    }

    fn row(&self, i: usize) -> Result<Halfsegment, NoSuchPlace> {
        if i >= self.kept.len() {
            return Err(NoSuchPlace);
        }
        Ok(self.kept.row(i))
    }
}

// `insert` and `remove` tell the interface's clauses again: a method with a clause of its own has its own alone.
impl<'a, E: Entry<N>, const N: usize> Store for RowStore<'a, E, N> {
    ghost room = { λ s. limit s.kept };

    fn room(&self) -> usize {
        self.kept.limit()
    }

    fn insert(&mut self, i: usize, row: Halfsegment) -> Result<(), InsertRefusal>
        ensures changed { Inserted (E.rows_of (entries self.old.kept)) (limit self.old.kept) i row result (E.rows_of (entries self.new.kept)) }
        ensures same { limit self.new.kept ≡ limit self.old.kept }
        ensures within { length (E.rows_of (entries self.new.kept)) ≤ limit self.new.kept }
        ensures memory { KeepsMemory self.old.kept self.new.kept }
    {
        if i > self.kept.len() {
            return Err(NoSuchPlace.into());
        }
        if self.kept.len() >= self.kept.limit() {
            return Err(InsertRefusal::NoRoom);
        }
        self.kept.insert(i, row);
        Ok(())
    }

    fn remove(&mut self, i: usize) -> Result<(), NoSuchPlace>
        ensures changed { Removed (E.rows_of (entries self.old.kept)) i result (E.rows_of (entries self.new.kept)) }
        ensures same { limit self.new.kept ≡ limit self.old.kept }
        ensures within { length (E.rows_of (entries self.new.kept)) ≤ limit self.new.kept }
        ensures memory { KeepsMemory self.old.kept self.new.kept }
    {
        if i >= self.kept.len() {
            return Err(NoSuchPlace);
        }
        self.kept.remove(i);
        Ok(())
    }
}
