//! Each object once, of findings and names that were made up. Which findings belong to which files isn't tried here.
mod beside;
mod common;
mod elections;
mod folders;
mod groups;
mod margins;
mod prices;
mod violations;
mod weights;
