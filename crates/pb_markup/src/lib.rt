//! Markup: the elements and attributes of a page, escaping, and how its pieces are written.
#![tactic(auto)]

mod attributes;
mod escapes;
pub mod laws;
mod markup;
mod tag;

pub use attributes::Attributes;
pub use escapes::push_escaped;
pub use markup::Page;
pub use tag::{Name, Tag};
