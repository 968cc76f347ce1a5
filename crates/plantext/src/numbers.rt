//! Whole numbers in decimal digits.
ghost use Rattle.std.specs.Prelude.{◌≡◌, ◌≤◌};
ghost use Rattle.plantext.specs.Text.{natural, number};

/// The number that the digits write, one or more, if it is not above `most`.
fn parse_natural(digits: &[u8], most: u64) -> Option<u64>
    requires { most ≤ 2147483648 }
    ensures { result ≡ natural most digits.now }
{
    if digits.is_empty() {
        return None;
    }
    // The loop stops at the first byte that is no digit; to read the text as UTF-8 and then `parse` it takes twice as long.
    let mut value: u64 = 0;
    for &byte in digits {
        if !byte.is_ascii_digit() {
            return None;
        }
        value = value * 10 + u64::from(byte - b'0');
        if value > most {
            return None;
        }
    }
    Some(value)
}

/// A whole number of 32 bits: a minus or none, then digits.
pub fn parse_number(text: &[u8]) -> Option<i32>
    ensures { result ≡ number text.now }
{
    if let [b'-', digits @ ..] = text {
        let size = parse_natural(digits, 2_147_483_648)?;
        return Some((0 - size as i64) as i32);
    }
    let size = parse_natural(text, 2_147_483_647)?;
    Some(size as i32)
}
