//! Reads archives, each a line of hexadecimal digits, and tells of each what it holds or why it is none.
#![tactic(auto)]

use archive::{Contents, read};
use archivetext::FaultLine;
use encoding::Date;
use std::io::Read;

/// Reads one archive, and tells its date and the number of its plans, or the first fault.
fn tell(rt: &impl Print, bytes: &[u8]) -> anyhow::Result<()> {
    match read(bytes) {
        Ok(Contents { date, plans }) => {
            let Date { year, month, day } = date;
            println!(rt; "accepted {year:04}-{month:02}-{day:02} plans {plans}")?;
        }
        Err(fault) => println!(rt; "{}", FaultLine { fault })?,
    }
    Ok(())
}

fn main(rt: HostRuntime) -> anyhow::Result<()> {
    let mut text = String::new(rt.alloc());
    rt.stdin().read_to_string(&mut text)?;
    for digits in text.lines() {
        let bytes = hex::decode(rt.alloc(), digits)?;
        tell(&rt, &bytes)?;
    }
    Ok(())
}
