//! The order of halfsegments.
ghost use Rattle.std.specs.Prelude.{◌≡◌, true, false, cond, ◌&&◌, pos, Some, None, MatchOption};
ghost use Rattle.std.specs.declared.cmp.Ordering.TheVariants.{Equal};
ghost use Rattle.plane.specs.Points.{orientation as oriented};
ghost use Rattle.plane.specs.Rows.{comes_before, compared, fit, left, reach, RowOrder, same_row};
ghost use Rattle.plane.specs.declared.halfsegment.Halfsegment.{Halfsegment};
ghost use Rattle.std.specs.Ordering.{bool_cmp, int_cmp, partial_lt};

use crate::halfsegment::Halfsegment;
use crate::point::{difference, orientation};
use std::cmp::Ordering;

/// A halfsegment whose ends are in range and differ.
#[derive(Clone, Copy)]
struct FitHalfsegment {
    row: Halfsegment,
    ghost is_fit: { fit row ≡ true },
}

impl FitHalfsegment {
    fn new(row: Halfsegment) -> Option<FitHalfsegment>
        ensures { MatchOption result (fit row ≡ false) (λ g. g.row ≡ row) }
    {
        if row.is_fit() {
            Some(FitHalfsegment { row })
        } else {
            None
        }
    }

    /// The square of the length.
    fn reach(self) -> i64
        ensures { result ≡ reach self.row }
    {
        let across = difference(self.row.far.x, self.row.dominating.x);
        let up = difference(self.row.far.y, self.row.dominating.y);
        across * across + up * up
    }

    /// Of two at one dominating point: right ones before left ones.
    fn compare_sides(self, other: FitHalfsegment) -> Ordering
        ensures { result ≡ bool_cmp (left self.row) (left other.row) }
    {
        let g = self.row;
        let h = other.row;
        g.is_left().cmp(&h.is_left())
    }

    /// Of two alike at one dominating point: by the turn about it.
    fn compare_turns(self, other: FitHalfsegment) -> Ordering
        ensures { result ≡ int_cmp (pos 0) (oriented self.row.far other.row.far self.row.dominating) }
    {
        let g = self.row;
        let h = other.row;
        let turn = orientation(g.far, h.far, g.dominating);
        0.cmp(&turn)
    }

    /// By dominating point, then right ones before left ones, then by the turn about the dominating point, then the
    /// nearer far end first. No step is taken before it is needed.
    fn compare(self, other: FitHalfsegment) -> Ordering
        ensures { Some result ≡ compared self.row other.row }
    {
        self.row
            .dominating
            .cmp(&other.row.dominating)
            .then_with(|| self.compare_sides(other))
            .then_with(|| self.compare_turns(other))
            .then_with(|| self.reach().cmp(&other.reach()))
    }
}

/// The order of the halfsegments of a plan, by dominating point, then anticlockwise from straight up.
///
/// One with an end out of range, or without length, comes neither before nor after any other.
impl PartialOrd for Halfsegment {
    ghost use Rattle.plane.specs.Rows.{compared};
    ghost use Rattle.plane.specs.RowLaws.{compared_laws};

    ghost partial_cmp = { compared };

    ghost laws = { compared_laws };

    fn partial_cmp(&self, other: &Halfsegment) -> Option<Ordering> {
        let Some(g) = FitHalfsegment::new(*self) else {
            return compare_unfit(self, other);
        };
        let Some(h) = FitHalfsegment::new(*other) else {
            return compare_unfit(self, other);
        };
        Some(g.compare(h))
    }
}

/// Where one of the two is not fit they are in no order, but for one that is compared with itself.
fn compare_unfit(g: &Halfsegment, h: &Halfsegment) -> Option<Ordering>
    ensures { result ≡ cond (same_row g.now h.now) (Some Equal) None }
{
    if g == h { Some(Ordering::Equal) } else { None }
}

/// `<` on halfsegments is a strict total order of those that are fit, and `==` says that two are one.
pub fn rows_are_ordered()
    ensures total { RowOrder }
    ensures equal { (g h : Halfsegment) → ⟦<Halfsegment as PartialEq>⟧.eq g h ≡ same_row g h }
    ensures less { (g h : Halfsegment) → partial_lt ⟦<Halfsegment as PartialOrd>⟧.partial_cmp g h ≡ (fit g && (fit h && comes_before g h)) }
{}
