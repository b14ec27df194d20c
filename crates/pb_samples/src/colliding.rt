//! An election whose ids of projects were made to collide.
use std::alloc::{AllocError, Global};

/// Ids of which the hasher of the kit makes hashes with the same lowest bits and the same highest ones. With the first 32
/// of them an `IndexSet` compares a text with 31 others.
pub const COLLIDING: [&str; 60] = [
    "aaipm", "aamcz", "aazjk", "aazuh", "abbdv", "abdig", "adevv", "adgwt", "adozc", "aensp",
    "aexta", "afedo", "aflrv", "agekd", "agixs", "ahclf", "ahian", "aijpu", "aijwb", "aikrs",
    "aiwwv", "ajjaa", "ajxad", "akftx", "alzdy", "amaob", "anbui", "anckw", "aoshs", "aoxst",
    "apdyg", "aphze", "aqerj", "aqhfj", "aqzqc", "arrck", "asdwy", "askgq", "askxm", "asxez",
    "atlzd", "atosd", "aubov", "aveub", "avgye", "avoti", "avsom", "awtqj", "ayhrd", "ayyhj",
    "aziqi", "bayrd", "bbmnn", "bbuxa", "bdhea", "bduvd", "bduyq", "bdwzt", "beeyf", "bftrd",
];

/// The election whose projects have these ids and cost 1 each, with one voter, who names these.
pub fn election_of(alloc: Global, ids: &[&str], vote: &str) -> Result<String, AllocError> {
    let mut text = String::from_str(
        alloc,
        "META\nkey;value\nbudget;9\nvote_type;approval\nPROJECTS\nproject_id;cost\n",
    )?;
    for id in ids {
        text.push_str(id)?;
        text.push_str(";1\n")?;
    }
    text.push_str("VOTES\nvoter_id;vote\n1;")?;
    text.push_str(vote)?;
    text.push_str("\n")?;
    Ok(text)
}
