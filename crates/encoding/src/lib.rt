//! What an archive's bytes are: dates, fields and plans, what reading them gives, and that reading is the inverse of writing.
#![tactic(auto)]

mod dates;
mod faults;
mod inverse;

pub use dates::Date;
pub use faults::{ArchiveFault, FieldFault, PlanFault};
pub use inverse::reading_inverts_writing;
