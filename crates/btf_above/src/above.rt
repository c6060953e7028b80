//! Look-ups by name in a table and in `.BTF.ext`.

mod relocations;
mod value;
mod variant;

pub use crate::above::relocations::relocations_of;
pub use crate::above::value::variant_value;
