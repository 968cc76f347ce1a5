//! The line that tells why bytes are no archive.
ghost use Rattle.std.specs.Prelude.{Some};
ghost use Rattle.archivetext.specs.Text.{told_fault};

use encoding::ArchiveFault;
use plantext::Named;
use std::fmt;

/// `refused N place B plan P` with the fault's number, its byte place and the plan's number, and behind it what check named,
/// if that is the fault.
#[derive(Clone, Copy, Debug, PartialEq, Eq)]
pub struct FaultLine {
    pub fault: ArchiveFault,
}

impl fmt::Display for FaultLine {
    ghost output = { λ l. Some (told_fault l.fault) };

    fn fmt<W: fmt::Write>(&self, f: &mut fmt::Formatter<W>) -> fmt::Result {
        let fault = self.fault;
        write!(
            f,
            "refused {} place {} plan {}",
            fault.number(),
            fault.place(),
            fault.plan()
        )?;
        match fault.check() {
            Some(refusal) => write!(f, "{}", Named(refusal)),
            None => Ok(()),
        }
    }
}
