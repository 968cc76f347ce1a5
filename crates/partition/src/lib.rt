//! Partitions of the places of a list: each place has a code, and places with one code are one class.
#![tactic(auto)]

mod codes;
mod joining;
mod numbering;

pub use codes::Coded;
pub use joining::{join, joins_make_classes, relabel};
pub use numbering::{first_place, number, numbers_tell_classes};
