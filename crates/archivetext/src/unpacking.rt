//! An archive's bytes as text: a line with the date, then for each plan a line with its title and a line for each row.
ghost use Rattle.std.specs.Prelude.{◌≡◌, ◌++◌, IfOk, IsTrue, MatchResult, Ok, OnOk};
ghost use Rattle.encoding.specs.Dates.{valid_date};
ghost use Rattle.encoding.specs.Read.{read_of};
ghost use Rattle.archive.specs.Fields.{plan_seen};
ghost use Rattle.archivetext.specs.Text.{date_words, line, plan_text, row_line, title_line, unpacked};
ghost use Rattle.archivetext.specs.declared.unpacking.UnpackFault.TheVariants.{OutOfMemory, Refused};
ghost use Rattle.archivetext.specs.Unpack.{Stopped, texted};

use crate::faultline::FaultLine;
use archive::{ArchivedPlan, Reader};
use encoding::{ArchiveFault, Date};
use plane::Halfsegment;
use std::alloc::{AllocError, Global};
use storage::Rows;

/// Why the text of an archive was not written to its end.
#[derive(Debug, Drop)]
enum UnpackFault {
    Refused(ArchiveFault),
    OutOfMemory(AllocError),
}

impl From<ArchiveFault> for UnpackFault {
    ghost from_gives = { λ fault stopped. stopped ≡ Refused fault };

    fn from(fault: ArchiveFault) -> UnpackFault {
        UnpackFault::Refused(fault)
    }
}

impl From<AllocError> for UnpackFault {
    ghost from_gives = { λ error stopped. stopped ≡ OutOfMemory error };

    fn from(error: AllocError) -> UnpackFault {
        UnpackFault::OutOfMemory(error)
    }
}

/// The line of a date.
fn date_line(alloc: Global, date: Date) -> Result<Vec<u8>, AllocError>
    requires { IsTrue (valid_date date) }
    ensures { IfOk result (λ text. text.items ≡ line (date_words date)) }
{
    let Date { year, month, day } = date;
    let line = format!(in alloc; "date {year}-{month:02}-{day:02}\n")?;
    Ok(line.into_bytes())
}

/// Adds the line of a row to the text.
fn push_row(alloc: Global, text: &mut Vec<u8>, row: Halfsegment) -> Result<(), AllocError>
    ensures { OnOk result (text.new.items ≡ text.old.items ++ row_line row) }
{
    let Halfsegment { dominating, far } = row;
    let line = format!(in alloc; "{} {} {} {}\n", dominating.x, dominating.y, far.x, far.y)?;
    text.extend_from_slice(line.as_bytes())
}

/// Adds the line of a title to the text.
fn push_title(text: &mut Vec<u8>, title: &[u8]) -> Result<(), AllocError>
    ensures { OnOk result (text.new.items ≡ text.old.items ++ title_line title.now) }
{
    text.extend_from_slice(b"plan ")?;
    text.extend_from_slice(title)?;
    text.push(b'\n')?;
    Ok(())
}

/// Adds the lines of a plan to the text: its title, and its rows in their order.
fn push_plan(alloc: Global, text: &mut Vec<u8>, plan: ArchivedPlan<'_>) -> Result<(), AllocError>
    ensures { OnOk result (text.new.items ≡ text.old.items ++ plan_text (plan_seen plan.entry)) }
{
    push_title(text, plan.title)?;
    for row in Rows::of(&plan.rows) {
        push_row(alloc, text, row)?;
    }
    Ok(())
}

/// The text of the archive that the bytes are.
fn archive_text(alloc: Global, bytes: &[u8]) -> Result<Vec<u8>, UnpackFault>
    ensures { MatchResult result (λ text. Ok text.items ≡ texted (read_of bytes.now)) (Stopped bytes.now) }
{
    let (date, mut reader) = Reader::open(bytes)?;
    let mut text = date_line(alloc, date)?;
    while let Some(plan) = reader.next_plan()? {
        push_plan(alloc, &mut text, plan)?;
    }
    Ok(text)
}

/// What the bytes hold, as text: the archive's text, or the line that tells why they are no archive.
pub fn unpack(alloc: Global, bytes: &[u8]) -> Result<Vec<u8>, AllocError>
    ensures { IfOk result (λ text. text.items ≡ unpacked bytes.now) }
{
    match archive_text(alloc, bytes) {
        Ok(text) => Ok(text),
        Err(UnpackFault::Refused(fault)) => {
            let line = format!(in alloc; "{}\n", FaultLine { fault })?;
            Ok(line.into_bytes())
        }
        Err(UnpackFault::OutOfMemory(error)) => Err(error),
    }
}
