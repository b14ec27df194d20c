//! Characters that can't be seen, as numbers, and joiners that belong to a word. `tests/test_hidden.py` tries all characters.
mod hidden;
mod joiners;
