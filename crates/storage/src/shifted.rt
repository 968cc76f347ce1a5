//! The shifted store: it holds any store and adds a fixed shift to all coordinates, counted round 32 bits.
ghost use Rattle.std.specs.Prelude.{◌≡◌, ◌≤◌, length};
ghost use Rattle.std.specs.Int.{int_wrapping_neg, w32};
ghost use Rattle.storage.specs.Rows.{Inserted, Removed};
ghost use Rattle.storage.specs.Shift.{all_moved, moved, moved_back};

use crate::interface::{InsertRefusal, NoSuchPlace, Source, Store};
use plane::{Halfsegment, Point};

/// How far rows are moved.
#[derive(Clone, Copy, Debug, PartialEq, Eq)]
struct Offset {
    dx: i32,
    dy: i32,
}

impl Offset {
    fn opposite(self) -> Offset
        ensures x { result.dx ≡ int_wrapping_neg w32 self.dx }
        ensures y { result.dy ≡ int_wrapping_neg w32 self.dy }
    {
        Offset {
            dx: self.dx.wrapping_neg(),
            dy: self.dy.wrapping_neg(),
        }
    }

    fn moved(self, row: Halfsegment) -> Halfsegment
        ensures { result ≡ moved self.dx self.dy row }
    {
        Halfsegment {
            dominating: Point {
                x: row.dominating.x.wrapping_add(self.dx),
                y: row.dominating.y.wrapping_add(self.dy),
            },
            far: Point {
                x: row.far.x.wrapping_add(self.dx),
                y: row.far.y.wrapping_add(self.dy),
            },
        }
    }

    fn moved_back(self, row: Halfsegment) -> Halfsegment
        ensures { result ≡ moved_back self.dx self.dy row }
    {
        self.opposite().moved(row)
    }
}

#[derive(Drop)]
pub struct ShiftedStore<S> {
    inner: S,
    offset: Offset,
}

impl<S> ShiftedStore<S> {
    /// The rows of `inner`, each moved by (dx, dy).
    pub fn new(inner: S, dx: i32, dy: i32) -> ShiftedStore<S>
        ensures inner { result.inner ≡ inner }
        ensures shift { (result.offset.dx ≡ dx) × (result.offset.dy ≡ dy) }
    {
        ShiftedStore {
            inner,
            offset: Offset { dx, dy },
        }
    }
}

impl<S: Source> Source for ShiftedStore<S> {
    ghost rows = { λ s. all_moved s.offset.dx s.offset.dy (S.rows s.inner) };

    fn count(&self) -> usize {
        self.inner.count()
    }

    fn row(&self, i: usize) -> Result<Halfsegment, NoSuchPlace> {
        let row = self.inner.row(i)?;
        Ok(self.offset.moved(row))
    }
}

// `insert` and `remove` tell the interface's clauses again: a method with a clause of its own has its own alone.
impl<S: Store> Store for ShiftedStore<S> {
    ghost room = { λ s. S.room s.inner };

    fn room(&self) -> usize {
        self.inner.room()
    }

    fn insert(&mut self, i: usize, row: Halfsegment) -> Result<(), InsertRefusal>
        ensures changed { Inserted (all_moved self.old.offset.dx self.old.offset.dy (S.rows self.old.inner)) (S.room self.old.inner) i row result (all_moved self.new.offset.dx self.new.offset.dy (S.rows self.new.inner)) }
        ensures same { S.room self.new.inner ≡ S.room self.old.inner }
        ensures within { length (all_moved self.new.offset.dx self.new.offset.dy (S.rows self.new.inner)) ≤ S.room self.new.inner }
        ensures shift { self.new.offset ≡ self.old.offset }
        ensures inner { Inserted (S.rows self.old.inner) (S.room self.old.inner) i (moved_back self.old.offset.dx self.old.offset.dy row) result (S.rows self.new.inner) }
    {
        self.inner.insert(i, self.offset.moved_back(row))
    }

    fn remove(&mut self, i: usize) -> Result<(), NoSuchPlace>
        ensures changed { Removed (all_moved self.old.offset.dx self.old.offset.dy (S.rows self.old.inner)) i result (all_moved self.new.offset.dx self.new.offset.dy (S.rows self.new.inner)) }
        ensures same { S.room self.new.inner ≡ S.room self.old.inner }
        ensures within { length (all_moved self.new.offset.dx self.new.offset.dy (S.rows self.new.inner)) ≤ S.room self.new.inner }
        ensures shift { self.new.offset ≡ self.old.offset }
        ensures inner { Removed (S.rows self.old.inner) i result (S.rows self.new.inner) }
    {
        self.inner.remove(i)
    }
}
