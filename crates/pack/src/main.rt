//! Packs a text from standard input into the bytes of its archive, on standard output.
#![tactic(auto)]

use anyhow::anyhow;
use archive::AddRefusal;
use archivetext::{LineFault, PackError, PackFault, pack};
use plantext::Named;
use std::io::{Read, Write};
use storage::MOST_ROWS;

/// Tells which line is at fault, and why. The words are the program's own: no rule fixes them, so the fault has no `Display` that promises them.
fn explain(rt: &impl Eprint, fault: PackFault) -> anyhow::Result<()> {
    let line = fault.line;
    match fault.why {
        LineFault::NotADate => eprintln!(rt; "line {line}: not `date YYYY-MM-DD`")?,
        LineFault::NoSuchDate => eprintln!(rt;
            "line {line}: there is no such date from 1950 to 2199"
        )?,
        LineFault::NotAPlan => eprintln!(rt; "line {line}: not `plan`, one space and a title")?,
        LineFault::NotARow => eprintln!(rt;
            "line {line}: not four whole numbers of 32 bits with single spaces between them"
        )?,
        LineFault::TooManyRows => eprintln!(rt; "line {line}: more than {MOST_ROWS} rows")?,
        LineFault::NotEnded => eprintln!(rt; "line {line}: no line feed at its end")?,
        LineFault::Refused(AddRefusal::BadPlan(refusal)) => {
            eprintln!(rt;
                "line {line}: check refuses the plan with {}{}",
                refusal.number(),
                Named(refusal)
            )?
        }
        LineFault::Refused(refusal) => {
            eprintln!(rt;
                "line {line}: the plan is refused with {}",
                refusal.number()
            )?
        }
    }
    Ok(())
}

fn main(rt: HostRuntime) -> anyhow::Result<()> {
    let mut text = Vec::new(rt.alloc());
    rt.stdin().read_to_end(&mut text)?;
    let bytes = match pack(rt.alloc(), &text) {
        Ok(bytes) => bytes,
        Err(PackError::AtLine(fault)) => {
            explain(&rt, fault)?;
            return Err(anyhow!("the text is not an archive"));
        }
        Err(PackError::OutOfMemory) => return Err(anyhow!("out of memory")),
    };
    rt.stdout().write_all(&bytes)?;
    Ok(())
}
