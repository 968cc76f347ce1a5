//! Check: whether the rows of any source are well formed and closed, or the first thing that is wrong.
ghost use Rattle.std.specs.Prelude.{◌≡◌, ℕ, ◌<◌, true, length};
ghost use Rattle.algebra.specs.Parity.{odd};
ghost use Rattle.plane.specs.Rows.{fit};
ghost use Rattle.region.specs.Check.{check_of, corners_answer, each_answer, meetings_answer, order_answer, placed, row, row_fault, stands, twins_answer};
ghost use Rattle.region.specs.Plans.{degree, Rising};
ghost use Rattle.region.specs.Verdict.{Accepts, Misfit, Nowhere, Twinless, Verdict};

use crate::refusals::{CheckRefusal, RowFault};
use plane::{Halfsegment, Point, meet_improperly};
use storage::{Rows, Source};

/// Tests one row by itself.
fn test_row(h: Halfsegment) -> Result<(), RowFault>
    ensures { result ≡ row_fault h }
{
    if !h.dominating.in_range() {
        return Err(RowFault::OutOfRange);
    }
    if !h.far.in_range() {
        return Err(RowFault::OutOfRange);
    }
    if h.dominating == h.far {
        return Err(RowFault::NoLength);
    }
    Ok(())
}

fn check_each<S: Source>(s: &S) -> Result<(), CheckRefusal>
    ensures { result ≡ each_answer (S.rows s.now) }
{
    for (i, h) in Rows::of(s).enumerate() {
        test_row(h).map_err(|fault| CheckRefusal::BadRow(i, fault))?;
    }
    Ok(())
}

/// Whether each row comes after the one before it.
fn check_order<S: Source>(s: &S) -> Result<(), CheckRefusal>
    requires { Nowhere (length (S.rows s.now)) (Misfit (S.rows s.now)) }
    ensures { result ≡ order_answer (S.rows s.now) }
{
    let mut neighbours = Rows::from_place(s, 0).zip(Rows::from_place(s, 1));
    neighbours
        // Not `>=`: rows that are not fit are in no order.
        .position(|(g, h)| !(g < h))
        .map_or(Ok(()), |i| Err(CheckRefusal::Unsorted(i + 1)))
}

/// Whether the row is one of the source's.
fn has_row<S: Source>(s: &S, h: Halfsegment) -> bool
    ensures { result ≡ stands (S.rows s.now) h }
{
    // From the first row on, since a source is no slice; the search for meetings takes as long.
    Rows::of(s).any(|g| g == h)
}

/// Whether each row's twin is there.
fn check_twins<S: Source>(s: &S) -> Result<(), CheckRefusal>
    ensures { result ≡ twins_answer (S.rows s.now) }
{
    Rows::of(s)
        .position(|h| !has_row(s, h.twin()))
        .map_or(Ok(()), |i| Err(CheckRefusal::NoTwin(i)))
}

/// Whether no two segments meet improperly. Each segment is met at its left row, and once a left row begins further
/// right than a segment ends, so do all later ones.
fn check_meetings<S: Source>(s: &S) -> Result<(), CheckRefusal>
    requires fits { Nowhere (length (S.rows s.now)) (Misfit (S.rows s.now)) }
    requires rising { Rising (S.rows s.now) }
    requires twins { Nowhere (length (S.rows s.now)) (Twinless (S.rows s.now)) }
    ensures { result ≡ meetings_answer (S.rows s.now) }
{
    // A search through pairs that is left by its label is one of the fixed forms (docs/DECISIONS.md).
    let n = s.count();
    let mut found = Ok(());
    'search: for (i, h) in Rows::at(s, 0..n).enumerate() {
        let l = h.segment();
        for g in Rows::at(s, i + 1..n) {
            if g.dominating.x > l.high.x {
                break;
            }
            if g.is_left() && meet_improperly(l, g.segment()) {
                found = Err(CheckRefusal::Improper(i));
                break 'search;
            }
        }
    }
    found
}

/// Whether an odd number of rows have the dominating point `v`.
fn is_odd_corner<S: Source>(s: &S, v: Point) -> bool
    ensures { result ≡ odd (degree (S.rows s.now) v) }
{
    // By `&`, since this is the innermost step of check, and `==` on points would branch at each row.
    Rows::of(s).fold(false, |is_odd, h| {
        is_odd != ((h.dominating.x == v.x) & (h.dominating.y == v.y))
    })
}

/// Whether each corner has an even number of rows.
fn check_corners<S: Source>(s: &S) -> Result<(), CheckRefusal>
    ensures { result ≡ corners_answer (S.rows s.now) }
{
    Rows::of(s)
        .find(|h| is_odd_corner(s, h.dominating))
        .map_or(Ok(()), |h| Err(CheckRefusal::Unclosed(h.dominating)))
}

/// Whether the rows, with whatever coordinates, are well formed and closed; else the first thing that is wrong: row by
/// row the range and the length, then for all rows the order, the twins, the meetings, the corners.
pub fn check<S: Source>(s: &S) -> Result<(), CheckRefusal>
    ensures answer { result ≡ check_of (S.rows s.now) }
    ensures verdict { Verdict (S.rows s.now) result }
{
    // No pass is begun over no rows, since an archive may hold many plans without any.
    if s.count() == 0 {
        return Ok(());
    }
    check_each(s)?;
    check_order(s)?;
    check_twins(s)?;
    check_meetings(s)?;
    check_corners(s)
}

/// Check finds nothing wrong exactly where the rows are well formed and closed.
pub fn check_accepts()
    ensures { Accepts }
{}
