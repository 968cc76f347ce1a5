//! How two segments meet.
ghost use Rattle.std.specs.Prelude.{◌≡◌, true, false, ◌&&◌, ◌||◌, pos, Decides, MatchOption};
ghost use Rattle.plane.specs.Meeting.{crossing, drawable, improper, inside, opposite, SignsTell};
ghost use Rattle.plane.specs.Points.{eq_int, orientation, precedes};
ghost use Rattle.plane.specs.Spots.{MeetImproperly};

use crate::point::{Point, orientation};
use crate::segment::Segment;

fn are_opposite(u: i64, v: i64) -> bool
    ensures { result ≡ opposite u v }
{
    (u < 0 && 0 < v) || (0 < u && v < 0)
}

/// A segment whose ends are in range, the lesser first. Apart from a halfsegment that is fit, since a ghost field is part of its type.
#[derive(Clone, Copy)]
struct DrawableSegment {
    segment: Segment,
    ghost is_drawable: { drawable segment ≡ true },
}

impl DrawableSegment {
    fn new(segment: Segment) -> Option<DrawableSegment>
        ensures { MatchOption result (drawable segment ≡ false) (λ l. l.segment ≡ segment) }
    {
        if segment.is_drawable() {
            Some(DrawableSegment { segment })
        } else {
            None
        }
    }

    /// On which side of the segment the lesser end of `other` lies: above 0 on its left, going from `low` to `high`.
    fn side_of_low(self, other: DrawableSegment) -> i64
        ensures { result ≡ orientation self.segment.low self.segment.high other.segment.low }
    {
        orientation(self.segment.low, self.segment.high, other.segment.low)
    }

    /// On which side of the segment the greater end of `other` lies.
    fn side_of_high(self, other: DrawableSegment) -> i64
        ensures { result ≡ orientation self.segment.low self.segment.high other.segment.high }
    {
        orientation(self.segment.low, self.segment.high, other.segment.high)
    }

    /// Whether the point stands strictly between the ends, in the order of points.
    fn spans(self, p: Point) -> bool
        ensures { result ≡ (precedes self.segment.low p && precedes p self.segment.high) }
    {
        self.segment.low < p && p < self.segment.high
    }

    /// Whether an end of `other` lies on the segment and is not an end of it. Its side is asked only where it stands between the ends.
    fn has_inside(self, other: DrawableSegment) -> bool
        ensures { result ≡ (inside self.segment other.segment.low || inside self.segment other.segment.high) }
    {
        (self.spans(other.segment.low) && self.side_of_low(other) == 0)
            || (self.spans(other.segment.high) && self.side_of_high(other) == 0)
    }

    /// Whether the ends of `other` lie strictly on both sides of the straight line through the segment.
    fn parts(self, other: DrawableSegment) -> bool
        ensures { result ≡ opposite (orientation self.segment.low self.segment.high other.segment.low) (orientation self.segment.low self.segment.high other.segment.high) }
    {
        are_opposite(self.side_of_low(other), self.side_of_high(other))
    }

    /// Whether each parts the other.
    fn crosses(self, other: DrawableSegment) -> bool
        ensures { result ≡ crossing self.segment other.segment }
    {
        other.parts(self) && self.parts(other)
    }

    fn is_improper_with(self, other: DrawableSegment) -> bool
        ensures { result ≡ improper self.segment other.segment }
    {
        // The crossing last, since it asks the most.
        self.has_inside(other) || other.has_inside(self) || self.crosses(other)
    }
}

/// Whether two segments that can stand in a plan differ and share a point that is not an end of both.
pub fn meet_improperly(l: Segment, m: Segment) -> bool
    ensures shared { drawable l ≡ true → drawable m ≡ true → Decides result (MeetImproperly l m) }
    ensures signs { result ≡ (drawable l && (drawable m && improper l m)) }
{
    let Some(l) = DrawableSegment::new(l) else {
        return false;
    };
    let Some(m) = DrawableSegment::new(m) else {
        return false;
    };
    l.is_improper_with(m)
}

/// Signs of orientations tell whether two segments meet improperly.
pub fn signs_tell_meetings()
    ensures { SignsTell }
{}
