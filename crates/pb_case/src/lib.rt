//! What a page is about, and how it is said: sentences with their placeholders filled, and what files say.
#![tactic(auto)]

mod case;
mod labels;
mod naming;
mod saying;

pub use case::{Case, InputFile, PageFiles};
pub use labels::{Labels, labels_of};
pub use naming::{currency_of, language_of, push_label, shortened, shown_line};
pub use saying::{Fillings, Words, grouped};
