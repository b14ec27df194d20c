//! What the sentences of a page about groups that fall short say.
pub mod de;
pub mod en;
pub mod fr;
pub mod pl;
