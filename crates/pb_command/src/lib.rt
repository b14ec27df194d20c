//! The command line of `pbaudit`: its commands, their help, and the task that a line of words asks for.
#![tactic(auto)]

mod command;
mod help;
mod task;

pub use task::{Inputs, OutcomeInputs, Task, UsageFault, task_of};
