//! The lines of dates and of titles.
ghost use Rattle.std.specs.Prelude.{◌≡◌, ◌≤◌, ◌<◌, ◌^◌, cond, length, Some, None, IfSome};
ghost use Rattle.std.specs.Str.{all_ascii_digits};
ghost use Rattle.plantext.specs.Text.{value};
ghost use Rattle.archivetext.specs.Pack.{date_of_line};
ghost use Rattle.archivetext.specs.Packing.{Titled};

use encoding::Date;

/// The number that decimal digits write, if there is nothing else.
fn parse_digits(text: &[u8]) -> Option<u16>
    requires { length text.now ≤ 4 }
    ensures value { result ≡ cond (all_ascii_digits text.now) (Some (value text.now)) None }
    ensures within { IfSome result (λ n. n < 10 ^ length text.now) }
{
    let mut number = 0;
    for byte in text {
        if !byte.is_ascii_digit() {
            return None;
        }
        number = 10 * number + u16::from(*byte - b'0');
    }
    Some(number)
}

/// The date in a line `date YYYY-MM-DD`, which may be of no day that there is.
pub(crate) fn parse_date(line: &[u8]) -> Option<Date>
    ensures { result ≡ date_of_line line.now }
{
    if line.len() != 15 || !line.starts_with(b"date ") || line[9] != b'-' || line[12] != b'-' {
        return None;
    }
    let year = parse_digits(&line[5..9])?;
    // Casts, since two digits fit, and `try_from` would answer an error that there is not.
    let month = parse_digits(&line[10..12])? as u8;
    let day = parse_digits(&line[13..])? as u8;
    Some(Date { year, month, day })
}

/// The title in a line `plan TITLE`.
pub(crate) fn parse_title(line: &[u8]) -> Option<&[u8]>
    ensures { Titled line.now result }
{
    line.strip_prefix(b"plan ")
}
