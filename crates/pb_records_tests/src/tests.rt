//! Samples whose answers were worked out by hand, and what no contract says. `NAME` tries the calls of `pb_NAME`.
mod money;
mod records;
mod streams;
