//! Reads the rows of a plan from standard input and tells whether they are well formed and closed.
#![tactic(auto)]

use anyhow::anyhow;
use plane::Halfsegment;
use plantext::{LineFault, VerdictLine, read_rows};
use region::check;
use std::io::Read;
use storage::{MOST_ROWS, RecordStore, Source};

/// Tells which line is at fault, and why. The fault has no `Display`, since it does not know the room of the store.
fn explain(rt: &impl Eprint, fault: LineFault) -> anyhow::Result<()> {
    match fault {
        LineFault::NotARow(line) => eprintln!(rt;
            "line {line}: not four whole numbers of 32 bits with single spaces between them"
        )?,
        LineFault::NoRoom(line) => eprintln!(rt; "line {line}: more than {MOST_ROWS} rows")?,
    }
    Ok(())
}

fn main(rt: HostRuntime) -> anyhow::Result<()> {
    let mut text = Vec::new(rt.alloc());
    rt.stdin().read_to_end(&mut text)?;
    let mut memory = vec![in rt.alloc(); Halfsegment::default(); MOST_ROWS]?;
    let mut store = RecordStore::new(&mut memory);
    if let Err(fault) = read_rows(&text, &mut store) {
        explain(&rt, fault)?;
        return Err(anyhow!("the input is not a plan"));
    }
    let count = store.count();
    let answer = check(&store);
    println!(rt; "{}", VerdictLine { count, answer })?;
    Ok(())
}
