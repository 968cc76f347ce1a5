//! A list kept in a lent slice, with its count.
ghost use Rattle.std.specs.Prelude.{◌≡◌, ℕ, ◌+◌, ◌-◌, ◌*◌, ◌/◌, ◌<◌, ◌≤◌, min, [], ◌∷◌, ◌++◌, length, take, drop};
ghost use Rattle.std.specs.List.{between};

use crate::entry::Entry;
use crate::gaps::{close_gap, open_gap};
use plane::Halfsegment;

/// Blocks of `N` entries, one after the other at the front of a lent slice, of which there are never more than `limit`.
///
/// A slice with a count, and no `Vec`, since a store lies in its caller's memory: one of the fixed forms (docs/DECISIONS.md).
#[derive(Drop)]
pub(crate) struct Kept<'a, E, const N: usize> {
    items: &'a mut [E],
    limit: usize,
    count: usize,
    ghost within: { count ≤ limit },
    ghost fits: { N * limit ≤ length items.now },
}

impl<'a, E: Entry<N>, const N: usize> Kept<'a, E, N> {
    ghost use Rattle.storage.specs.Entries.{entries, KeepsMemory, lender, limit, size, whole};

    /// An empty list in the slice.
    pub(crate) fn new(items: &'a mut [E], most: usize) -> Kept<'a, E, N>
        ensures limit { limit result ≡ min most (length items.old / N) }
        ensures empty { size result ≡ 0 }
        ensures same { whole result ≡ items.old }
        ensures lender { lender result ≡ items.entry.ghost_name }
    {
        let limit = most.min(items.len() / N);
        Kept {
            items,
            limit,
            count: 0,
        }
    }

    /// How many blocks fit.
    pub(crate) fn limit(&self) -> usize
        ensures { result ≡ limit self.now }
    {
        self.limit
    }

    pub(crate) fn len(&self) -> usize
        ensures value { result ≡ size self.now }
        ensures within { size self.now ≤ limit self.now }
    {
        self.count
    }

    /// The row of block `i`.
    pub(crate) fn row(&self, i: usize) -> Halfsegment
        requires { i < size self.now }
        ensures { E.rows_of (between (N * i) (N * i + N) (entries self.now)) ≡ result ∷ [] }
    {
        E::read(&self.items[N * i..N * i + N])
    }

    /// Puts a block with the row at place `i`; the later ones move on.
    pub(crate) fn insert(&mut self, i: usize, row: Halfsegment)
        requires { (i ≤ size self.old) × (size self.old < limit self.old) }
        ensures size { size self.new ≡ size self.old + 1 }
        ensures entries { entries self.new ≡ take (N * i) (entries self.old) ++ (E.entries_of row ++ drop (N * i) (entries self.old)) }
        ensures memory { KeepsMemory self.old self.new }
    {
        open_gap(self.items, N * self.count, N * i, N);
        E::write(&mut self.items[N * i..N * i + N], row);
        self.count += 1;
    }

    /// Takes out block `i`; the later ones close up.
    pub(crate) fn remove(&mut self, i: usize)
        requires { i < size self.old }
        ensures size { size self.new + 1 ≡ size self.old }
        ensures entries { entries self.new ≡ take (N * i) (entries self.old) ++ drop (N * i + N) (entries self.old) }
        ensures memory { KeepsMemory self.old self.new }
    {
        close_gap(self.items, N * self.count, N * i, N);
        self.count -= 1;
    }
}
