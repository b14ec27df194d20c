//! What is found of prices, of violations and of groups that fall short, told in words: a line for each condition, test
//! or figure; and the tables of margins.
#![tactic(auto)]

mod amounts;
mod group_lines;
mod group_margins;
mod margin_table;
mod price_table;
mod refutation_table;
mod rows;
mod shown_group;
mod violation_table;

pub use group_lines::push_group_lines;
pub use group_margins::group_margins_text;
pub use margin_table::margin_table_text;
pub use price_table::push_price_table;
pub use refutation_table::push_refutation_table;
pub use shown_group::push_shown_group;
pub use violation_table::push_violation_table;
