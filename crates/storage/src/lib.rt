//! Where the rows of a plan are kept: the interfaces of a source and a store, and the stores over lent memory.
#![tactic(auto)]

mod bytes;
mod entry;
mod equality;
mod gaps;
mod interface;
mod kept;
mod records;
mod rows;
mod shifted;
mod stores;

pub use bytes::{ROW_BYTES, row_at, row_bytes};
pub use equality::same;
pub use interface::{InsertRefusal, NoSuchPlace, Source, Store};
pub use rows::Rows;
pub use shifted::ShiftedStore;
pub use stores::{ByteStore, MOST_ROWS, RecordStore};
