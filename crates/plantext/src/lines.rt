//! A row as a line of text.
ghost use Rattle.std.specs.Prelude.{◌≡◌, [], ◌∷◌, MatchOption};
ghost use Rattle.plantext.specs.Text.{pieces, row_of_line};

use crate::numbers::parse_number;
use plane::{Halfsegment, Point};

/// The first field of a line, and what follows the space behind it, if there is one.
fn split_field(line: &[u8]) -> (&[u8], Option<&[u8]>)
    ensures { MatchOption result.1 (pieces 32 line.now ≡ result.0.now ∷ []) (λ rest. pieces 32 line.now ≡ result.0.now ∷ pieces 32 rest.now) }
{
    // Over `split` a fifth field would be walked and read, however long it is; over `splitn` each row takes longer.
    let Some(len) = line.iter().position(|b| *b == b' ') else {
        return (line, None)
    };
    (&line[..len], Some(&line[len + 1..]))
}

/// The row in a line: dominating x and y, far x and y, each a whole number of 32 bits, with single spaces between them.
pub fn parse_row(line: &[u8]) -> Option<Halfsegment>
    ensures { result ≡ row_of_line line.now }
{
    let (x, rest) = split_field(line);
    let (y, rest) = split_field(rest?);
    let (far_x, rest) = split_field(rest?);
    let (far_y, rest) = split_field(rest?);
    if rest.is_some() {
        return None;
    }
    Some(Halfsegment {
        dominating: Point {
            x: parse_number(x)?,
            y: parse_number(y)?,
        },
        far: Point {
            x: parse_number(far_x)?,
            y: parse_number(far_y)?,
        },
    })
}
