//! Split tables. A split table has the types of a kernel module; its ids and string offsets begin where those of its
//! base, the kernel's table, end.
#![tactic(auto)]

mod blob;
mod hint;
mod joining;
mod part;

pub use btf_table::string_len;
pub use hint::looks_split;
pub use joining::{append_split, parse_split, truncate};
pub use part::split_bytes;
