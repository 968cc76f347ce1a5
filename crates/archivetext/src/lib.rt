//! Archives as text: packing a text into an archive, and unpacking one.
#![tactic(auto)]

mod faultline;
mod faults;
mod filling;
mod growing;
mod heads;
mod packing;
mod round;
mod splitting;
mod unpacking;

pub use faultline::FaultLine;
pub use faults::{LineFault, PackError, PackFault};
pub use packing::pack;
pub use round::text_stands_for_archive;
pub use unpacking::unpack;
