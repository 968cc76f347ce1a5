//! Reading an archive: its date, then plan after plan, up to the last field.
ghost use Rattle.std.specs.Prelude.{◌≡◌, ℕ, ◌+◌, ◌≤◌, length};
ghost use Rattle.encoding.specs.Format.{date_tag};
ghost use Rattle.encoding.specs.Read.{count_in, date_in, next_in, read_of};
ghost use Rattle.archive.specs.Fields.{left, Moved, with_content};
ghost use Rattle.archive.specs.Decoding.{Accepted, NextMoved, NextParts, Opened, seen_next, stepped, summed, told};

use crate::fields::{Field, HEAD, Tag};
use crate::plans::ArchivedPlan;
use crate::spans::Span;
use encoding::{ArchiveFault, Date, FieldFault};

/// What an archive holds: its date, and how many plans.
#[derive(Clone, Copy, Debug, PartialEq, Eq)]
pub struct Contents {
    pub date: Date,
    pub plans: usize,
}

/// The date that the content of its field tells.
fn date_in(content: &[u8]) -> Result<Date, FieldFault>
    ensures { result ≡ date_in content.now }
{
    let &[high, low, month, day] = content else {
        return Err(FieldFault::Malformed);
    };
    let date = Date {
        year: u16::from_be_bytes([high, low]),
        month,
        day,
    };
    if !date.is_valid() {
        return Err(FieldFault::NoSuchDate);
    }
    Ok(date)
}

/// Whether the content of the last field tells that number of plans.
fn count_in(plans: usize, content: &[u8]) -> Result<(), FieldFault>
    ensures { result ≡ count_in plans content.now }
{
    let &[high, low] = content else {
        return Err(FieldFault::Malformed);
    };
    if usize::from(u16::from_be_bytes([high, low])) != plans {
        return Err(FieldFault::Malformed);
    }
    Ok(())
}

impl Span {
    /// The date, whose field is due.
    fn read_date(&mut self, bytes: &[u8]) -> Result<Date, FieldFault>
        ensures value { result ≡ with_content date_tag date_in (left bytes.now self.old) }
        ensures moved { Moved bytes.now self.old self.new result }
    {
        date_in(self.read_content(bytes, Tag::Date)?)
    }

    /// The next plan, or none where the last field comes, after that many plans.
    fn read_next<'a>(
        &mut self,
        bytes: &'a [u8],
        plans: usize,
    ) -> Result<Option<ArchivedPlan<'a>>, ArchiveFault>
        requires { plans ≤ self.old.at }
        ensures value { seen_next result ≡ next_in self.old.at plans (left bytes.now self.old) }
        ensures parts { NextParts bytes.entry (self.old.at + 3) result }
        ensures moved { NextMoved bytes.now self.old self.new result }
    {
        let place = self.at;
        let field = self
            .read_field(bytes, &[Tag::Plan, Tag::Last])
            .map_err(|fault| ArchiveFault::AtField(place, fault))?;
        match field {
            Field::Plan(_) => {
                let behind = self.at;
                let plan = self
                    .read_plan(bytes, place + HEAD, behind)
                    .map_err(|fault| ArchiveFault::InPlan(place, plans + 1, fault))?;
                self.at = behind;
                Ok(Some(plan))
            }
            Field::Last(content) => {
                count_in(plans, content).map_err(|fault| ArchiveFault::AtField(place, fault))?;
                if self.at < self.end.min(bytes.len()) {
                    return Err(ArchiveFault::AtField(self.at, FieldFault::Malformed));
                }
                Ok(None)
            }
            _ => unreachable(),
        }
    }
}

/// A reader of an archive, behind its date and some of its plans.
#[derive(Clone, Copy)]
pub struct Reader<'a> {
    bytes: &'a [u8],
    span: Span,
    plans: usize,
}

impl<'a> Reader<'a> {
    /// Reads the date, and stands before the first plan.
    pub fn open(bytes: &'a [u8]) -> Result<(Date, Reader<'a>), ArchiveFault>
        ensures { Opened bytes.entry result }
    {
        let mut span = Span {
            at: 0,
            end: bytes.len(),
        };
        let date = span
            .read_date(bytes)
            .map_err(|fault| ArchiveFault::AtField(0, fault))?;
        Ok((
            date,
            Reader {
                bytes,
                span,
                plans: 0,
            },
        ))
    }

    /// The next plan, or none behind the last one. Where there is none, or a refusal, the reader stays where it is.
    pub fn next_plan(&mut self) -> Result<Option<ArchivedPlan<'a>>, ArchiveFault>
        ensures value { seen_next result ≡ next_in self.old.span.at (told self.old) (left self.old.bytes.now self.old.span) }
        ensures parts { NextParts self.old.bytes (self.old.span.at + 3) result }
        ensures after { self.new ≡ stepped self.old result }
    {
        let mut span = self.span;
        // As in `told`: a ghost field for the bound would stand as a proof in each clause that gives a reader as a record.
        let plans = self.plans.min(span.at);
        let next = span.read_next(self.bytes, plans)?;
        if next.is_some() {
            self.span = span;
            self.plans = plans + 1;
        }
        Ok(next)
    }
}

/// Reads an archive from its first byte to its last: what it holds, or the first fault.
pub fn read(bytes: &[u8]) -> Result<Contents, ArchiveFault>
    ensures answer { result ≡ summed (read_of bytes.now) }
    ensures verdict { Accepted bytes.now result }
{
    let (date, mut reader) = Reader::open(bytes)?;
    while reader.next_plan()?.is_some() {}
    Ok(Contents {
        date,
        plans: reader.plans,
    })
}
