//! The lines of a plan's rows, and what check's answer says of their readings.
ghost use Rattle.region.specs.Lines.{CheckReads, RowsHaveLines};

/// The segments of the left rows of a well-formed plan stand once and meet properly, and the two senses of closed are one.
pub fn rows_have_lines()
    ensures { RowsHaveLines }
{}

/// On well-formed rows check accepts exactly the plans with one reading, and says unclosed exactly of those with none.
pub fn check_reads()
    ensures { CheckReads }
{}
