//! Archives of plans: written field by field into lent bytes, and read back from them.
#![tactic(auto)]

mod decoding;
mod fields;
mod plans;
mod spans;
mod states;
mod views;
mod writing;

pub use decoding::{Contents, Reader, read};
pub use fields::Field;
pub use plans::ArchivedPlan;
pub use states::{AddRefusal, BeginRefusal, CloseRefusal, ClosedArchive, OpenArchive};
pub use views::PlanView;
pub use writing::is_title;
