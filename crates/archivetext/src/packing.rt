//! Packing a text: from its lines to the bytes of the archive that it stands for.
ghost use Rattle.std.specs.Prelude.{◌≡◌, ◌≤◌, length};
ghost use Rattle.archivetext.specs.Packing.{DateRead, Packed, PlanRead, RowsRead};

use crate::faults::{LineFault, PackError, PackFault};
use crate::growing::Growing;
use crate::heads::{parse_date, parse_title};
use crate::splitting::Lines;
use encoding::Date;
use plane::Halfsegment;
use plantext::parse_row;
use std::alloc::Global;
use storage::{MOST_ROWS, NoSuchPlace, Source};

/// A plan that was read: the number of its title's line, the title, and its rows.
#[derive(Drop)]
pub(crate) struct PlanLines<'a> {
    pub(crate) line: usize,
    pub(crate) title: &'a [u8],
    pub(crate) rows: Vec<Halfsegment>,
}

impl<'a> Source for PlanLines<'a> {
    ghost rows = { λ p. p.rows.items };

    fn count(&self) -> usize {
        self.rows.len()
    }

    fn row(&self, i: usize) -> Result<Halfsegment, NoSuchPlace> {
        self.rows.get(i).copied().ok_or(NoSuchPlace)
    }
}

/// The date in the first line, and the lines behind it.
fn read_date(lines: Lines<'_>) -> Result<(Date, Lines<'_>), PackFault>
    ensures { DateRead lines.entry result }
{
    let not_a_date = PackFault {
        line: 1,
        why: LineFault::NotADate,
    };
    let (line, behind) = lines.first().ok_or(not_a_date)?;
    let date = parse_date(line).ok_or(not_a_date)?;
    Ok((date, behind))
}

/// The rows up to the next title or the end, and the lines behind them.
fn read_rows(
    alloc: Global,
    mut lines: Lines<'_>,
) -> Result<(Vec<Halfsegment>, Lines<'_>), PackError>
    ensures { RowsRead lines.entry result }
{
    let mut rows = Vec::new(alloc);
    while let Some((line, behind)) = lines.first() {
        if parse_title(line).is_some() {
            return Ok((rows, lines));
        }
        let Some(row) = parse_row(line) else {
            return Err(lines.fault(LineFault::NotARow).into());
        };
        if rows.len() >= MOST_ROWS {
            return Err(lines.fault(LineFault::TooManyRows).into());
        }
        rows.push(row)?;
        lines = behind;
    }
    lines.end()?;
    Ok((rows, lines))
}

/// The next plan and the lines behind it, or none at the end.
fn read_plan(
    alloc: Global,
    lines: Lines<'_>,
) -> Result<Option<(PlanLines<'_>, Lines<'_>)>, PackError>
    ensures { PlanRead lines.entry result }
{
    let Some((line, behind)) = lines.first() else {
        lines.end()?;
        return Ok(None);
    };
    let Some(title) = parse_title(line) else {
        return Err(lines.fault(LineFault::NotAPlan).into());
    };
    let (rows, behind) = read_rows(alloc, behind)?;
    let plan = PlanLines {
        line: lines.number(),
        title,
        rows,
    };
    Ok(Some((plan, behind)))
}

/// The bytes of the archive that a text stands for, or the first line at fault.
pub fn pack(alloc: Global, text: &[u8]) -> Result<Vec<u8>, PackError>
    ensures { Packed text.now result }
{
    let (date, mut lines) = read_date(Lines::of(text))?;
    let mut archive = Growing::begin(alloc, date)?;
    loop {
        match read_plan(alloc, lines) {
            Ok(Some((plan, behind))) => {
                archive = archive.add(&plan)?;
                lines = behind;
            }
            Ok(None) => return Ok(archive.close()?),
            Err(error) => {
                archive.abandon();
                return Err(error);
            }
        }
    }
}
