//! Readings of a plan: which ground is covered and which is bare. Nothing here runs: each function's contract is a theorem.
#![tactic(auto)]

ghost use Rattle.reading.specs.Example.{Triangle};
ghost use Rattle.reading.specs.Theorems.{ClosedReads, CrossingsCount, LegTells, OddCornerHasNone, OneOrNone, ParityReads, ParitySums, ReadingsAgree};

/// One leg and one line, that share no point or cross: under which ends of the leg the line passes.
pub fn leg_tells()
    ensures { LegTells }
{}

/// The same summed over all lines, modulo 2.
pub fn parity_sums()
    ensures { ParitySums }
{}

/// On closed lines the parity of the lines under a spot is a reading.
pub fn parity_reads()
    ensures { ParityReads }
{}

/// Two readings of the same lines agree at every spot on no line.
pub fn readings_agree()
    ensures { ReadingsAgree }
{}

/// Lines with an odd corner have no reading.
pub fn odd_corner_has_none()
    ensures { OddCornerHasNone }
{}

/// Lines are closed exactly where they have a reading, and then exactly one.
pub fn one_or_none()
    ensures closed { ClosedReads }
    ensures one { OneOrNone }
{}

/// The ends of a leg are said alike exactly where it crosses an even number of lines.
pub fn crossings_count()
    ensures { CrossingsCount }
{}

/// A triangle has the parity as a reading, and two of its sides have none.
pub fn triangle_reads()
    ensures { Triangle }
{}
