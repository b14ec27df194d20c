//! Whole runs: their words, the listing of a folder, and exit statuses. What the program prints and tells on files is tried
//! from outside, in `tests/` at the top.
mod ends;
mod fakes;
mod listing;
mod room;
mod runs;
mod words;
