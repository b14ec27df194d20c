//! Replies: the inputs and the lines.
mod answers;
mod lines;
mod taking;
