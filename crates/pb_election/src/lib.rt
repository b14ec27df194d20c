//! Elections of participatory budgeting: reading an election in Pabulib's format, and the outcomes of an election. What
//! loads a file and writes one out is handed on from `pb_records`.
#![tactic(auto)]

mod columns;
mod decided;
mod election;
mod election_draft;
mod guesses;
mod ids;
mod keys;
pub mod laws;
mod markers;
mod order;
mod outcome;
mod outline;
mod refusal;
mod sections;
mod steps;
mod votes;

pub use columns::{UnusedColumns, column_named, field_in};
pub use decided::DecidedElection;
pub use election::Election;
pub use election_draft::MOST_VOTERS;
pub use markers::{is_named, marker_of};
pub use outcome::Outcome;
pub use outline::{Outline, RecordKind};
pub use pb_records::{Input, LoadFault, Output, PutFault, Sink, Source, clean, load, put};
pub use refusal::{ElectionFault, Refusal};
pub use sections::Section;
