//! What is answered on files in memory and printed on what readers give, once by each call, and what only readers and
//! writers can show that fail. What else the answers are is tried from outside, in `tests/` at the top.
mod commands;
mod in_turn;
