//! The auditor: one answer to each question, over files in memory and over readers, and the report on a folder.
#![tactic(auto)]

mod answers;
mod auditing;
mod both;
pub mod endings;
mod explain;
mod figured;
mod folder;
mod folder_report;
mod found;
mod groups;
pub mod laws;
mod margins;
pub mod names;
mod objects;
mod on_groups;
mod parts;
mod prices;
mod question;
mod read;
mod refutation;
mod rendering;
mod runs;
mod tables;
mod tidy;
mod total;
mod violation;

pub use answers::answer;
pub use folder::{Entry, LentEntry, folder_text};
pub use folder_report::FolderReport;
pub use on_groups::{groups_on_yes, notes_on_yes};
pub use parts::{ToldEntry, told_of_total};
pub use pb_input::{InputFault, InputName, InputRefusal};
pub use pb_reply::{Answer, Fault, Format, Loaded, Status, Unmet};
pub use question::Question;
pub use runs::{
    run_both, run_groups, run_prices, run_read, run_refutation, run_tidy, run_violation,
};
pub use total::{FolderStatus, Total};
