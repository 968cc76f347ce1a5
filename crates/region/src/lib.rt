//! Plans as lists of halfsegments: whether their rows are well formed and closed.
#![tactic(auto)]

mod checking;
mod lines;
mod refusals;

pub use checking::{check, check_accepts};
pub use lines::{check_reads, rows_have_lines};
pub use refusals::{CheckRefusal, RowFault};
