//! Certificates and outcome files, their rows, and the canonical text: each call once, and what no file shows from
//! outside. What else is read and refused is tried there.
mod canonical;
mod kinds;
mod outcomes;
mod prices;
mod refutations;
mod rows;
mod violations;
