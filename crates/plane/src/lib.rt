//! Exact plane geometry: points, segments, halfsegments and their order, and how two segments meet.
#![tactic(auto)]

mod halfsegment;
mod meeting;
mod order;
mod point;
mod segment;

pub use halfsegment::Halfsegment;
pub use meeting::{meet_improperly, signs_tell_meetings};
pub use order::rows_are_ordered;
pub use point::{Point, orientation, points_are_ordered};
pub use segment::Segment;
