//! Reads an archive from standard input and writes what it holds as text, or the line that tells why it is none.
#![tactic(auto)]

use archivetext::unpack;
use std::io::{Read, Write};

fn main(rt: HostRuntime) -> anyhow::Result<()> {
    let mut bytes = Vec::new(rt.alloc());
    rt.stdin().read_to_end(&mut bytes)?;
    let text = unpack(rt.alloc(), &bytes)?;
    rt.stdout().write_all(&text)?;
    Ok(())
}
