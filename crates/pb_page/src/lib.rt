//! The page about a certificate, or about groups that fall short: one HTML file for people, made in memory of the files
//! that were audited.
#![tactic(auto)]

mod digest;
mod entry;
mod groups_entry;
mod groups_told;
mod input_files;
mod parts;
mod style;
mod telling;

pub use digest::sum_of;
pub use entry::{PageNames, page_answer};
pub use groups_entry::groups_page_answer;
pub use pb_figures::{Figure, closest_first, wrongly_paid_first};
pub use pb_markup::{Attributes, Name, Page, Tag, push_escaped};
pub use pb_visible::visible;
pub use pb_words::{Headline, Language};
