//! What the parts of a page are made of: tables of projects, bars, tiles, and names with what became of them.
#![tactic(auto)]

mod bars;
mod rows;
mod states;
mod tiles;

pub use bars::{Look, MARK, WIDTH, length_of, part_in_words, push_bar};
pub use rows::{
    COST, Column, ColumnKind, MOST_ROWS, Order, STATE, begin_cell, begin_row, begin_table,
    behind_rows, end_table, push_left_out, push_state,
};
pub use states::{State, push_name};
pub use tiles::{begin_tile, end_tile, push_money_tile, push_number_tile};
