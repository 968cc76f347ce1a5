//! The line that tells what check found.
ghost use Rattle.plantext.specs.Lines.{named, told};
ghost use Rattle.std.specs.Prelude.{Some};

use plane::Point;
use region::CheckRefusal;
use std::fmt;

/// What a refusal names, behind its number: ` row P` with the row's place, or ` at X Y` with the corner.
#[derive(Clone, Copy, Debug, PartialEq, Eq)]
pub struct Named(pub CheckRefusal);

impl fmt::Display for Named {
    ghost output = { λ n. Some (named n.0) };

    fn fmt<W: fmt::Write>(&self, f: &mut fmt::Formatter<W>) -> fmt::Result {
        match self.0 {
            CheckRefusal::Unclosed(Point { x, y }) => write!(f, " at {x} {y}"),
            CheckRefusal::BadRow(row, _)
            | CheckRefusal::Unsorted(row)
            | CheckRefusal::NoTwin(row)
            | CheckRefusal::Improper(row) => write!(f, " row {row}"),
        }
    }
}

/// `closed N` with the number of rows, or `refused N` with the refusal's number and the row or the corner that it names.
#[derive(Debug, Drop)]
pub struct VerdictLine {
    pub count: usize,
    pub answer: Result<(), CheckRefusal>,
}

impl fmt::Display for VerdictLine {
    ghost output = { λ v. Some (told v.count v.answer) };

    fn fmt<W: fmt::Write>(&self, f: &mut fmt::Formatter<W>) -> fmt::Result {
        match self.answer {
            Ok(()) => write!(f, "closed {}", self.count),
            Err(refusal) => write!(f, "refused {}{}", refusal.number(), Named(refusal)),
        }
    }
}
