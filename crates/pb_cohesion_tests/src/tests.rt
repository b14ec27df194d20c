//! Samples whose answers were worked out by hand, and what no contract says.
mod cohesion;
mod short;
mod stable;
