//! The rows of an archive's plan, as they lie in the archive's own bytes: a source that cannot be changed.
ghost use Rattle.std.specs.Prelude.{◌≡◌};
ghost use Rattle.storage.specs.Bytes.{rows_of};

use plane::Halfsegment;
use storage::{NoSuchPlace, ROW_BYTES, Source, row_at};

/// Rows in bytes, sixteen a row; a rest of less than sixteen is no row.
#[derive(Clone, Copy)]
pub struct PlanView<'a> {
    bytes: &'a [u8],
}

impl<'a> PlanView<'a> {
    pub fn new(bytes: &'a [u8]) -> PlanView<'a>
        ensures { result.bytes ≡ bytes.entry }
    {
        PlanView { bytes }
    }
}

impl<'a> Source for PlanView<'a> {
    ghost rows = { λ s. rows_of s.bytes.now };

    fn count(&self) -> usize {
        self.bytes.len() / ROW_BYTES
    }

    fn row(&self, i: usize) -> Result<Halfsegment, NoSuchPlace> {
        row_at(self.bytes, i).ok_or(NoSuchPlace)
    }
}
