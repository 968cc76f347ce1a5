//! Checks many small plans: each begins with a line `#NAME`, and the rows of the plan follow it.
#![tactic(auto)]

use anyhow::anyhow;
use plane::Halfsegment;
use plantext::{VerdictLine, read_rows};
use region::check;
use std::io::Read;
use storage::{RecordStore, Source};

/// Reads the rows of one plan and tells what check says of them, under the plan's name.
fn tell(rt: &impl Print, name: &str, rows: &str, memory: &mut [Halfsegment]) -> anyhow::Result<()> {
    let mut store = RecordStore::new(memory);
    read_rows(rows.as_bytes(), &mut store).map_err(|_| anyhow!(
        "a case has a line that is not a row"
    ))?;
    let count = store.count();
    let answer = check(&store);
    println!(rt; "{name}: {}", VerdictLine { count, answer })?;
    Ok(())
}

fn main(rt: HostRuntime) -> anyhow::Result<()> {
    let mut text = String::new(rt.alloc());
    rt.stdin().read_to_string(&mut text)?;
    let mut memory = vec![in rt.alloc(); Halfsegment::default(); 100]?;
    for plan in text.split('#') {
        if let Some((name, rows)) = plan.split_once('\n') {
            tell(&rt, name, rows, &mut memory)?;
        }
    }
    Ok(())
}
