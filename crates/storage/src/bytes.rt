//! Rows in bytes, sixteen a row: dominating x and y, far x and y, four bytes each, two's complement, highest first.
ghost use Rattle.std.specs.Prelude.{◌≡◌, ◌+◌, ◌*◌, ◌/◌, ◌≤◌, length, Some, None};
ghost use Rattle.storage.specs.Bytes.{bytes_row, row_at_byte, row_bytes, rows_of, word_at};
ghost use Rattle.storage.specs.Layouts.{byte_layout};

use crate::entry::Entry;
use plane::{Halfsegment, Point};

/// How many bytes a row takes.
pub const ROW_BYTES: usize = 16;

/// The row that sixteen bytes are. No `From`, here and below: neither the row nor the array is a type of this crate.
fn row_from(bytes: &[u8; ROW_BYTES]) -> Halfsegment
    ensures { result ≡ row_at_byte bytes.now 0 }
{
    let (words, _) = bytes.as_chunks();
    Halfsegment {
        dominating: Point {
            x: i32::from_be_bytes(words[0]),
            y: i32::from_be_bytes(words[1]),
        },
        far: Point {
            x: i32::from_be_bytes(words[2]),
            y: i32::from_be_bytes(words[3]),
        },
    }
}

/// The row at place `i` of rows that lie in the bytes, sixteen a row; a rest of less than sixteen is no row.
pub fn row_at(bytes: &[u8], i: usize) -> Option<Halfsegment>
    ensures { result ≡ bytes_row bytes.now i }
{
    let (rows, _) = bytes.as_chunks();
    let row = rows.get(i)?;
    Some(row_from(row))
}

/// The sixteen bytes of a row.
pub fn row_bytes(row: Halfsegment) -> [u8; ROW_BYTES]
    ensures { result ≡ row_bytes row }
{
    let mut bytes = [0; ROW_BYTES];
    bytes[..4].copy_from_slice(&row.dominating.x.to_be_bytes());
    bytes[4..8].copy_from_slice(&row.dominating.y.to_be_bytes());
    bytes[8..12].copy_from_slice(&row.far.x.to_be_bytes());
    bytes[12..].copy_from_slice(&row.far.y.to_be_bytes());
    bytes
}

impl Entry<ROW_BYTES> for u8 {
    ghost rows_of = { rows_of };

    ghost entries_of = { row_bytes };

    ghost layout = { byte_layout };

    fn read(entries: &[u8]) -> Halfsegment {
        // Sixteen bytes hold one row.
        row_at(entries, 0).unwrap()
    }

    fn write(entries: &mut [u8], row: Halfsegment) {
        entries.copy_from_slice(&row_bytes(row));
    }
}
