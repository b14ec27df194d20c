//! The verdict on prices, the figures of each project, and what each condition comes to.
mod calling;
mod figures;
mod verdicts;
