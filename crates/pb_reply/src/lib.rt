//! Replies: what the inputs of a command state, or why one is refused; the lines on it; and how an answer is written.
#![tactic(auto)]

mod answer;
mod given;
mod lines;
mod loaded;
mod status;
mod table;
mod taking;
mod unanswered;
mod verdict_lines;

pub use answer::{
    Answer, Format, FromReply, InFormats, Reply, one_line, or_refusal, refused, reply_why,
};
pub use given::{AsFile, Given};
pub use lines::{push_limit_note, push_line, push_notes, read_line};
pub use loaded::{File, Loaded, bytes_of};
pub use status::{Fault, Status, Unmet};
pub use table::Table;
pub use taking::{
    decided_of, election_of, kind_in, refutation_of, take_decided, take_election, violation_of,
};
pub use unanswered::{Unanswered, taken_as, unanswered_at};
pub use verdict_lines::{
    groups_line, groups_status, price_line, price_status, refutation_line, refutation_status,
    violation_line, violation_status,
};
