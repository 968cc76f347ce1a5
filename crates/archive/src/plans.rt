//! The content of a plan's field: a title and rows, handed out as parts of the archive's own bytes.
ghost use Rattle.std.specs.Prelude.{◌≡◌, ℕ, ◌+◌, ◌≤◌, length};
ghost use Rattle.encoding.specs.Format.{rows_tag, title_tag};
ghost use Rattle.encoding.specs.Read.{plan_in, rows_in, title_in};
ghost use Rattle.archive.specs.Fields.{ContentPart, left, Moved, PlanParts, RowsPart, seen, seen_plan, seen_rows, with_content};

use crate::fields::Tag;
use crate::spans::{Inside, Span};
use crate::views::PlanView;
use crate::writing::is_title;
use encoding::{FieldFault, PlanFault};
use region::check;
use storage::{MOST_ROWS, ROW_BYTES};

/// A plan of an archive: its title, and its rows as a source.
#[derive(Clone, Copy)]
pub struct ArchivedPlan<'a> {
    pub title: &'a [u8],
    pub rows: PlanView<'a>,
}

impl Span {
    /// The title, whose field is due.
    fn read_title<'a>(&mut self, bytes: &'a [u8]) -> Result<&'a [u8], FieldFault>
        ensures value { seen result ≡ with_content title_tag title_in (left bytes.now self.old) }
        ensures part { ContentPart bytes.entry (self.old.at + 3) result }
        ensures moved { Moved bytes.now self.old self.new result }
    {
        let title = self.read_content(bytes, Tag::Title)?;
        if !is_title(title) {
            return Err(FieldFault::BadTitle);
        }
        Ok(title)
    }

    /// The rows, whose field is due: at most 4,000 of them.
    fn read_rows<'a>(&mut self, bytes: &'a [u8]) -> Result<PlanView<'a>, FieldFault>
        ensures value { seen_rows result ≡ with_content rows_tag rows_in (left bytes.now self.old) }
        ensures part { RowsPart bytes.entry (self.old.at + 3) result }
        ensures moved { Moved bytes.now self.old self.new result }
    {
        let rows = self.read_content(bytes, Tag::Rows)?;
        if rows.len() > ROW_BYTES * MOST_ROWS || rows.len() % ROW_BYTES != 0 {
            return Err(FieldFault::Malformed);
        }
        Ok(PlanView::new(rows))
    }

    /// The plan in the bytes between two places. The span's old end is back afterwards, refused or not.
    pub(crate) fn read_plan<'a>(
        &mut self,
        bytes: &'a [u8],
        from: usize,
        to: usize,
    ) -> Result<ArchivedPlan<'a>, PlanFault>
        requires { to ≤ length bytes.now }
        ensures value { seen_plan result ≡ plan_in from (left bytes.now record { at = from; end = to }) }
        ensures parts { PlanParts bytes.entry from result }
        ensures end { self.new.end ≡ self.old.end }
    {
        let inside = Inside::enter(self, from, to);
        let title = inside
            .span
            .read_title(bytes)
            .map_err(|fault| PlanFault::InField(from, fault))?;
        let place = inside.span.at;
        let rows = inside
            .span
            .read_rows(bytes)
            .map_err(|fault| PlanFault::InField(place, fault))?;
        let place = inside.span.at;
        if place < to {
            return Err(PlanFault::InField(place, FieldFault::Malformed));
        }
        check(&rows)?;
        Ok(ArchivedPlan { title, rows })
    }
}
