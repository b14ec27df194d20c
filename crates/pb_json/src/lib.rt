//! Answers as values in JSON: what an election has, and what each condition or test of a certificate comes to. An
//! object has its members in the order of their keys. Amounts are texts of digits; voters are told by their numbers,
//! from 1, and projects by their ids.
#![tactic(auto)]

mod answers;
mod beside;
mod conditions;
mod elections;
mod folders;
mod groups;
mod margins;
mod members;
mod places;
mod prices;
mod refutations;
mod texts;
mod violations;

pub use answers::{both_json, refusal_json};
pub use beside::beside_json;
pub use elections::{election_json, outcome_json, read_json};
pub use folders::{entry_json, total_json};
pub use groups::groups_json;
pub use margins::{group_margins_json, margins_json};
pub use prices::prices_json;
pub use refutations::refutation_json;
pub use texts::{Object, json_text};
pub use violations::violation_json;
