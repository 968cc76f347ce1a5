//! The rows of a source, one after the other.
ghost use Rattle.std.specs.Prelude.{◌≡◌, ◌<◌, ◌^◌, length, drop};
ghost use Rattle.std.specs.Iterator.{YieldsFirst, item_count};
ghost use Rattle.std.specs.List.{between};

use crate::interface::Source;
use plane::Halfsegment;
use std::ops::Range;

/// The rows of a source at the places that are still to come.
#[derive(Drop)]
pub struct Rows<'a, S> {
    source: &'a S,
    places: Range<usize>,
}

impl<'a, S: Source> Rows<'a, S> {
    /// All rows of the source, in order.
    pub fn of(source: &'a S) -> Rows<'a, S>
        ensures rows { between result.places.start result.places.end (S.rows result.source.now) ≡ S.rows source.now }
        ensures fits { length (S.rows source.now) < 2 ^ 64 }
    {
        Rows::from_place(source, 0)
    }

    /// The rows from the place on, in order.
    pub fn from_place(source: &'a S, place: usize) -> Rows<'a, S>
        ensures rows { between result.places.start result.places.end (S.rows result.source.now) ≡ drop place (S.rows source.now) }
        ensures fits { length (S.rows source.now) < 2 ^ 64 }
    {
        Rows::at(source, place..source.count())
    }

    /// The rows at the places, in order. A caller that knows the count need not ask the source for it again.
    pub fn at(source: &'a S, places: Range<usize>) -> Rows<'a, S>
        ensures { between result.places.start result.places.end (S.rows result.source.now) ≡ between places.start places.end (S.rows source.now) }
    {
        Rows { source, places }
    }
}

impl<'a, S: Source> Iterator for Rows<'a, S> {
    type Item = Halfsegment;

    ghost next_gives = { YieldsFirst (λ s. between s.places.start s.places.end (S.rows s.source.now)) };

    ghost remaining = { item_count (λ s. between s.places.start s.places.end (S.rows s.source.now)) };

    fn next(&mut self) -> Option<Halfsegment> {
        let place = self.places.next()?;
        // There is a row at each place below the count, and that is proved.
        let Ok(row) = self.source.row(place) else {
            return None
        };
        Some(row)
    }
}
