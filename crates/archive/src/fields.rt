//! The fields of an archive, read one by one: each holds its content, a part of the archive's own bytes.
ghost use Rattle.std.specs.Prelude.{◌≡◌, ℕ, ◌+◌, ◌≤◌, Ok, length};
ghost use Rattle.encoding.specs.Read.{content_of};
ghost use Rattle.archive.specs.Fields.{ContentPart, Decodes, field_tag, FieldRead, left, Moved, Part, part_of, passed, seen, tag_number, with_content};

use crate::spans::Span;
use encoding::FieldFault;

/// How many bytes a field's tag and length take.
pub(crate) const HEAD: usize = 3;

/// What a field is, by its first byte.
#[derive(Clone, Copy, Debug, PartialEq, Eq)]
pub(crate) enum Tag {
    Date = 0x01,
    Plan = 0x20,
    Title = 0x21,
    Rows = 0x22,
    Last = 0x7F,
}

impl TryFrom<u8> for Tag {
    type Error = FieldFault;

    ghost try_from_gives = { Decodes };

    fn try_from(byte: u8) -> Result<Self, FieldFault> {
        // A pattern cannot name a discriminant.
        match byte {
            0x01 => Ok(Tag::Date),
            0x20 => Ok(Tag::Plan),
            0x21 => Ok(Tag::Title),
            0x22 => Ok(Tag::Rows),
            0x7F => Ok(Tag::Last),
            _ => Err(FieldFault::Malformed),
        }
    }
}

/// A field by its tag, with its content. The cases are those of `Tag` once more, since each holds its own part of the bytes: one of the
/// fixed forms (docs/DECISIONS.md).
#[derive(Clone, Copy)]
pub enum Field<'a> {
    Date(&'a [u8]),
    Plan(&'a [u8]),
    Title(&'a [u8]),
    Rows(&'a [u8]),
    Last(&'a [u8]),
}

impl<'a> Field<'a> {
    /// The field with that tag and content.
    fn new(tag: Tag, content: &'a [u8]) -> Field<'a>
        ensures tag { field_tag result ≡ tag_number tag }
        ensures part { part_of result ≡ content.entry }
    {
        match tag {
            Tag::Date => Field::Date(content),
            Tag::Plan => Field::Plan(content),
            Tag::Title => Field::Title(content),
            Tag::Rows => Field::Rows(content),
            Tag::Last => Field::Last(content),
        }
    }

    /// The content, whatever the tag.
    fn content(self) -> &'a [u8]
        ensures { result ≡ part_of self.entry }
    {
        match self {
            Field::Date(content)
            | Field::Plan(content)
            | Field::Title(content)
            | Field::Rows(content)
            | Field::Last(content) => content,
        }
    }
}

/// The `len` bytes from the place `from` on.
fn part(bytes: &[u8], from: usize, len: usize) -> &[u8]
    requires { from + len ≤ length bytes.now }
    ensures { Part bytes.entry from len result }
{
    &bytes[from..from + len]
}

impl Span {
    /// Reads the field at the span's place, whose tag has to be one of those that are due, and moves the place behind it.
    /// A refusal leaves the span as it was.
    pub(crate) fn read_field<'a>(
        &mut self,
        bytes: &'a [u8],
        due: &[Tag],
    ) -> Result<Field<'a>, FieldFault>
        ensures answer { FieldRead due.now bytes.entry self.old result }
        ensures span { self.new ≡ passed bytes.now self.old result }
    {
        let at = self.at;
        let end = self.end.min(bytes.len());
        if at >= end {
            return Err(FieldFault::NoFit);
        }
        let tag = Tag::try_from(bytes[at])?;
        if !due.contains(&tag) {
            return Err(FieldFault::Malformed);
        }
        if end - at < HEAD {
            return Err(FieldFault::NoFit);
        }
        let len = usize::from(u16::from_be_bytes([bytes[at + 1], bytes[at + 2]]));
        if end - at - HEAD < len {
            return Err(FieldFault::NoFit);
        }
        let content = part(bytes, at + HEAD, len);
        self.at = at + HEAD + len;
        Ok(Field::new(tag, content))
    }

    /// The content of the field with that tag, which is due.
    pub(crate) fn read_content<'a>(
        &mut self,
        bytes: &'a [u8],
        tag: Tag,
    ) -> Result<&'a [u8], FieldFault>
        ensures value { seen result ≡ with_content (tag_number tag) Ok (left bytes.now self.old) }
        ensures part { ContentPart bytes.entry (self.old.at + 3) result }
        ensures moved { Moved bytes.now self.old self.new result }
    {
        Ok(self.read_field(bytes, &[tag])?.content())
    }
}
