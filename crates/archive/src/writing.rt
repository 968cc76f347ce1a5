//! Writing an archive: begin it, add plans, close it. Each call is lent the bytes.
ghost use Rattle.std.specs.Prelude.{◌≡◌, ℕ, ◌+◌, ◌*◌, ◌<◌, ◌≤◌, ◌∷◌, length};
ghost use Rattle.encoding.specs.Format.{date_field, last_field, plan_field, rows_content, two_bytes, valid_title};
ghost use Rattle.archive.specs.Fields.{tag_number};
ghost use Rattle.archive.specs.Writing.{add_answer, add_fault, begin_answer, close_answer, KeepsBegun, KeepsAdded, KeepsClosed, patched, written};

use crate::fields::{HEAD, Tag};
use crate::states::{AddRefusal, BeginRefusal, CloseRefusal, ClosedArchive, OpenArchive};
use encoding::Date;
use region::check;
use storage::{MOST_ROWS, ROW_BYTES, Rows, Source, row_bytes};

/// How many bytes a title may have.
const LONGEST_TITLE: usize = 40;

/// How many bytes the field of the date takes.
const DATE_FIELD: usize = HEAD + 4;

/// How many bytes the last field takes.
const LAST_FIELD: usize = HEAD + 2;

/// Writes the new bytes over the old ones from the place `at` on. What writes is told the place, since a cursor over the rest would owe
/// the same room, and leave the bytes before it unsaid.
fn put(bytes: &mut [u8], at: usize, new: &[u8])
    requires { at + length new.now ≤ length bytes.old }
    ensures { bytes.new ≡ patched bytes.old at new.now }
{
    let end = at + new.len();
    bytes[at..end].copy_from_slice(new);
}

/// Writes a field's tag and length.
fn put_head(bytes: &mut [u8], at: usize, tag: Tag, len: usize)
    requires { (at + 3 ≤ length bytes.old) × (len < 65536) }
    ensures { bytes.new ≡ patched bytes.old at (tag_number tag ∷ two_bytes len) }
{
    // A cast, since `try_from` would answer an error that there is not.
    let [high, low] = (len as u16).to_be_bytes();
    put(bytes, at, &[tag as u8, high, low]);
}

/// Writes the rows of the source, sixteen bytes each.
fn put_rows<S: Source>(bytes: &mut [u8], at: usize, source: &S)
    requires { at + 16 * length (S.rows source.now) ≤ length bytes.old }
    ensures { bytes.new ≡ patched bytes.old at (rows_content (S.rows source.now)) }
{
    for (i, row) in Rows::of(source).enumerate() {
        put(bytes, at + ROW_BYTES * i, &row_bytes(row));
    }
}

/// Whether a title has at most 40 bytes, each from 20 to 7E in hexadecimal.
pub fn is_title(title: &[u8]) -> bool
    ensures { result ≡ valid_title title.now }
{
    title.len() <= LONGEST_TITLE && title.iter().all(|byte| matches!(byte, 0x20..=0x7E))
}

impl OpenArchive {
    /// Begins an archive with its date.
    pub fn begin(bytes: &mut [u8], date: Date) -> Result<OpenArchive, BeginRefusal>
        ensures answer { result ≡ begin_answer date (length bytes.old) }
        ensures bytes { bytes.new ≡ written result bytes.old 0 (date_field date) }
        ensures keeps { KeepsBegun date result bytes.new }
    {
        if !date.is_valid() {
            return Err(BeginRefusal::NoSuchDate);
        }
        if bytes.len() < DATE_FIELD {
            return Err(BeginRefusal::NoRoom);
        }
        let [high, low] = date.year.to_be_bytes();
        put(
            bytes,
            0,
            &[Tag::Date as u8, 0, 4, high, low, date.month, date.day],
        );
        Ok(OpenArchive {
            len: DATE_FIELD,
            plans: 0,
        })
    }

    /// What stands against adding the plan, if anything.
    fn admit<S: Source>(&self, room: usize, title: &[u8], source: &S) -> Result<(), AddRefusal>
        ensures { result ≡ add_fault self.now room title.now (S.rows source.now) }
    {
        if !is_title(title) {
            return Err(AddRefusal::BadTitle);
        }
        check(source)?;
        let count = source.count();
        if count > MOST_ROWS || self.plans == u16::MAX {
            return Err(AddRefusal::TooLarge);
        }
        if room.saturating_sub(self.len) < 3 * HEAD + title.len() + ROW_BYTES * count {
            return Err(AddRefusal::TooLarge);
        }
        Ok(())
    }

    /// Adds a plan. A refusal hands the open archive back and leaves all bytes as they were.
    pub fn add<S: Source>(
        self,
        bytes: &mut [u8],
        title: &[u8],
        source: &S,
    ) -> Result<OpenArchive, (OpenArchive, AddRefusal)>
        ensures answer { result ≡ add_answer self (length bytes.old) title.now (S.rows source.now) }
        ensures bytes { bytes.new ≡ written result bytes.old self.len (plan_field record { title = title.entry.now; rows = S.rows source.now }) }
        ensures keeps { KeepsAdded self bytes.old title.now (S.rows source.now) result bytes.new }
    {
        if let Err(refusal) = self.admit(bytes.len(), title, source) {
            return Err((self, refusal));
        }
        let OpenArchive { len, plans } = self;
        let size = title.len();
        let rows = ROW_BYTES * source.count();
        let title_at = len + HEAD;
        let rows_at = title_at + HEAD + size;
        put_head(bytes, len, Tag::Plan, HEAD + size + HEAD + rows);
        put_head(bytes, title_at, Tag::Title, size);
        put(bytes, title_at + HEAD, title);
        put_head(bytes, rows_at, Tag::Rows, rows);
        put_rows(bytes, rows_at + HEAD, source);
        Ok(OpenArchive {
            len: rows_at + HEAD + rows,
            plans: plans + 1,
        })
    }

    /// Closes the archive with the number of its plans. A refusal hands the open archive back.
    pub fn close(self, bytes: &mut [u8]) -> Result<ClosedArchive, (OpenArchive, CloseRefusal)>
        ensures answer { result ≡ close_answer self (length bytes.old) }
        ensures bytes { bytes.new ≡ written result bytes.old self.len (last_field self.plans) }
        ensures keeps { KeepsClosed self bytes.old result bytes.new }
    {
        if bytes.len().saturating_sub(self.len) < LAST_FIELD {
            return Err((self, CloseRefusal));
        }
        let OpenArchive { len, plans } = self;
        let [high, low] = plans.to_be_bytes();
        put(bytes, len, &[Tag::Last as u8, 0, 2, high, low]);
        Ok(ClosedArchive {
            len: len + LAST_FIELD,
        })
    }
}
