//! Faces of a plan: which covered ground is connected. Nothing here runs: each function's contract is a theorem.
#![tactic(auto)]

ghost use Rattle.faces.specs.Example.{ApartStaysApart};
ghost use Rattle.faces.specs.Theorems.{BelowTells, BetweenColumns, ColumnJoins, LeftNeverMissing, WalkKeeps};

/// A spot on no line is covered exactly where an odd number of segments is below it on its right.
pub fn below_tells()
    ensures { BelowTells }
{}

/// Straight below a covered spot the segments just below on the left and on the right are of one component.
pub fn column_joins()
    ensures { ColumnJoins }
{}

/// On closed lines the segment just below on the left is never missing where the rules look for it.
pub fn left_never_missing()
    ensures { LeftNeverMissing }
{}

/// Between columns without corners nothing changes.
pub fn between_columns()
    ensures { BetweenColumns }
{}

/// A walk that touches no line keeps the component of the segment just below.
pub fn walk_keeps()
    ensures { WalkKeeps }
{}

/// Two triangles side by side are of two components, and no walk leads from one to the other.
pub fn apart_stays_apart()
    ensures { ApartStaysApart }
{}
