//! Hints: why a file is refused, in sentences for a person, and the lines of the file on which they are. No contract
//! says what a hint says. Proved is that making one is safe and ends; the words are tested. What a file is by its first
//! record is proved too.
#![tactic(auto)]

mod causes;
mod certificates;
mod elections;
mod excerpt;
mod file_kind;
mod lines;
mod lookup;
mod oddity;
mod quotes;
mod remark;
mod scene;
mod story;
mod telling;
mod walk;

pub use excerpt::{push_quoted, push_shown};
pub use file_kind::FileKind;
pub use remark::Remark;
pub use telling::hint;
