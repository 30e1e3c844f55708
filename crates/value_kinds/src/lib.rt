// What a value kind is, and three of them: the bit of one row, the column of sixteen rows, the level.
#![tactic(auto)]

mod kinds;
mod value_kind;

pub use kinds::{Column, Level};
pub use value_kind::ValueKind;
