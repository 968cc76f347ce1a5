//! Plans as text: a row on each line, and the line that tells what check found.
#![tactic(auto)]

mod lines;
mod numbers;
mod plans;
mod verdicts;

pub use lines::parse_row;
pub use numbers::parse_number;
pub use plans::{LineFault, read_rows};
pub use verdicts::{Named, VerdictLine};
