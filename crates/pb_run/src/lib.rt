//! Whole runs of the program: words, files and standard streams in; an answer, what is told beside it, and an exit status
//! out. What a run does is proved for any files: which question is asked, in which mode, of the files at which paths; that
//! its answer on what they deliver is written; and with which exit status it ends. What files the machine has is its own
//! business, and so is what is told on standard error; both are tested.
#![tactic(auto)]

mod asking;
mod end;
mod file;
mod files;
mod folder;
mod listed;
mod listing;
mod machine;
mod names;
mod progress;
mod refusals;
mod seen;
mod task;
mod watched;
mod whole_run;
mod words;

pub use end::End;
pub use files::Files;
pub use folder::write_report;
pub use listed::{ListFault, Listed};
pub use listing::Listing;
pub use machine::Machine;
pub use pb_command::{Inputs, Task, UsageFault, task_of};
pub use watched::WatchedReader;
pub use whole_run::run;
pub use words::{without_words, words_of};
