//! Characters of names that can't be seen, or that turn what follows, and how a text is shown with them.
#![tactic(auto)]

mod hidden;
mod joiners;
mod text;

pub use hidden::is_hidden;
pub use text::{push_number, visible};
