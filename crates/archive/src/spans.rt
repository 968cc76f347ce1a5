//! Where a reader stands and where what it may read ends, and the guard that keeps it within a plan's field.
ghost use Rattle.std.specs.Prelude.{◌≡◌};

/// The bytes from the place `at` to the place `end` are left to read.
///
/// Its methods are lent the archive's bytes, and it does not hold them: the guard borrows this record alone, one of the fixed forms
/// (docs/DECISIONS.md).
#[derive(Clone, Copy)]
pub(crate) struct Span {
    pub(crate) at: usize,
    pub(crate) end: usize,
}

/// While this lives, nothing beyond a plan's field exists for the reader. On leaving, refused or not, the old end is back.
pub(crate) struct Inside<'a> {
    pub(crate) span: &'a mut Span,
    old_end: usize,
}

impl<'a> Inside<'a> {
    /// Enters the bytes from the place `from` to the place `to`.
    pub(crate) fn enter(span: &'a mut Span, from: usize, to: usize) -> Inside<'a>
        ensures old { result.old_end ≡ span.old.end }
        ensures at { result.span.now.at ≡ from }
        ensures end { result.span.now.end ≡ to }
        ensures lent { result.span.ghost_name ≡ span.entry.ghost_name }
    {
        let old_end = span.end;
        span.at = from;
        span.end = to;
        Inside { span, old_end }
    }
}

impl Drop for Inside<'_> {
    fn drop(self)
        ensures end { self.exit.0.now.end ≡ self.entry.old_end }
        ensures at { self.exit.0.now.at ≡ self.entry.span.now.at }
    {
        self.span.end = self.old_end;
        let Inside {
            span: _,
            old_end: _,
        } = self;
    }
}
