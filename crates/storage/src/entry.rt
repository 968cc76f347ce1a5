//! How a row lies in the entries of lent memory.
ghost use Rattle.std.specs.Prelude.{◌≡◌, ℕ, List, [], ◌∷◌, length};
ghost use Rattle.plane.specs.declared.halfsegment.Halfsegment.{Halfsegment};
ghost use Rattle.storage.specs.Layout.{IsLayout};

use plane::Halfsegment;

/// What lent memory is made of: `N` entries hold a row. It is not public, so that no public function has a precondition.
pub(crate) trait Entry<const N: usize>: Copy {
    // The rows that lie in entries, one after the other.
    ghost rows_of: { List Self → List Halfsegment };

    // The entries that a row takes.
    ghost entries_of: { Halfsegment → List Self };

    /// The row that `N` entries hold.
    fn read(entries: &[Self]) -> Halfsegment
        requires { length entries.now ≡ N }
        ensures { rows_of entries.now ≡ result ∷ [] };

    /// Makes `N` entries hold the row.
    fn write(entries: &mut [Self], row: Halfsegment)
        requires { length entries.old ≡ N }
        ensures { entries.new ≡ entries_of row };

    // What is written reads as the row, and the rows before and after it stay.
    ghost layout: { IsLayout N rows_of entries_of };
}
