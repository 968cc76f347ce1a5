//! The dates of archives.
ghost use Rattle.std.specs.Prelude.{◌≡◌};
ghost use Rattle.encoding.specs.Dates.{days_in, valid_date};

/// A day by its numbers, which may be of no day that there is.
#[derive(Clone, Copy, Debug, PartialEq, Eq)]
pub struct Date {
    pub year: u16,
    pub month: u8,
    pub day: u8,
}

/// How many days the month has.
fn days_in(year: u16, month: u8) -> u8
    ensures { result ≡ days_in year month }
{
    match month {
        2 => if year % 4 == 0 { 29 } else { 28 },
        4 | 6 | 9 | 11 => 30,
        _ => 31,
    }
}

impl Date {
    /// Whether there is such a day in the years 1950 to 2199; a year that divides by four is leap.
    pub fn is_valid(self) -> bool
        ensures { result ≡ valid_date self }
    {
        matches!(self.year, 1950..=2199)
            && matches!(self.month, 1..=12)
            && (1..=days_in(self.year, self.month)).contains(&self.day)
    }
}
