//! Rows as entries of memory: each is a row itself.
ghost use Rattle.storage.specs.Layouts.{record_layout};
ghost use Rattle.std.specs.Prelude.{◌∷◌, []};

use crate::entry::Entry;
use plane::Halfsegment;

impl Entry<1> for Halfsegment {
    ghost rows_of = { λ xs. xs };

    ghost entries_of = { λ r. r ∷ [] };

    ghost layout = { record_layout };

    fn read(entries: &[Halfsegment]) -> Halfsegment {
        entries[0]
    }

    fn write(entries: &mut [Halfsegment], row: Halfsegment) {
        entries.copy_from_slice(&[row]);
    }
}
