//! The parts that each page has but for the files: its head, what was asked, the summary, and what stands at its end.
#![tactic(auto)]

mod asked;
mod closing;
mod glance;
mod groups;
mod short_groups;
mod top;

pub use asked::push_asked;
pub use closing::push_closing;
pub use glance::push_glance;
pub use groups::{push_groups, says_little};
pub use top::{push_browser_title, push_top};
