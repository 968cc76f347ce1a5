//! A plan as text, a row on each line, into a store.
ghost use Rattle.std.specs.Prelude.{◌≡◌, length};
ghost use Rattle.std.specs.Iterator.{YieldsFirstBy, at_most};
ghost use Rattle.plantext.specs.Plans.{fill_answer, fill_rows, lines_of};

use crate::lines::parse_row;
use storage::{Source, Store};

/// Why a text could not be read into the store; each names the line, from 1.
#[derive(Clone, Copy, Debug, PartialEq, Eq)]
pub enum LineFault {
    NotARow(usize),
    NoRoom(usize),
}

/// The lines of a text, each without its line feed. Over `split_inclusive` each loop would have to prove what `next` proves here once.
#[derive(Drop)]
struct Lines<'a> {
    rest: &'a [u8],
}

impl<'a> Lines<'a> {
    fn of(text: &'a [u8]) -> Lines<'a>
        ensures { result.rest.now ≡ text.now }
    {
        Lines { rest: text }
    }
}

impl<'a> Iterator for Lines<'a> {
    type Item = &'a [u8];

    ghost next_gives = { YieldsFirstBy (λ x. x.now) (λ s. lines_of s.rest.now) };

    ghost remaining = { λ s. at_most (length s.rest.now) };

    fn next(&mut self) -> Option<&'a [u8]> {
        if self.rest.is_empty() {
            return None;
        }
        let mut parts = self.rest.splitn(2, |b| *b == b'\n');
        let line = parts.next()?;
        self.rest = parts.next().unwrap_or(&[]);
        Some(line)
    }
}

/// Adds the rows of the text, one on each line, at the end of the store, up to the first line that is not a row or that
/// finds no room.
pub fn read_rows<S: Store>(text: &[u8], store: &mut S) -> Result<(), LineFault>
    ensures answer { result ≡ fill_answer (S.Store.room store.old) (length (S.Source.rows store.old)) 0 (lines_of text.now) }
    ensures rows { S.Source.rows store.new ≡ fill_rows (S.Store.room store.old) (S.Source.rows store.old) (lines_of text.now) }
    ensures same { S.Store.room store.new ≡ S.Store.room store.old }
{
    for (before, line) in Lines::of(text).enumerate() {
        let row = parse_row(line).ok_or(LineFault::NotARow(before + 1))?;
        let end = store.count();
        store
            .insert(end, row)
            .map_err(|_| LineFault::NoRoom(before + 1))?;
    }
    Ok(())
}
