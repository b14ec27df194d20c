//! Files as records: loading a file, going over its records, finding its first fault, and writing out. And
//! lists that stand one behind the other in one array.
#![tactic(auto)]

mod cells;
mod cursor;
mod drafts;
mod lines;
mod loading;
mod ragged_array;
pub mod record_writer;
mod records;

pub use cells::{cell, clean, is_blank, is_blank_from};
pub use cursor::Cursor;
pub use drafts::{Draft, FaultAt, Stop, take_all};
pub use lines::Triple;
pub use loading::{Input, LoadFault, Output, PutFault, Sink, Source, load, put};
pub use ragged_array::RaggedArray;
pub use records::Next;
