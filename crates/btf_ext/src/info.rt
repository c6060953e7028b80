//! Function and line records, by the sections of a program.

mod by_section;
mod func;
mod line;

pub use crate::info::func::{FuncInfo, FuncSecInfo, bpf_func_info};
pub use crate::info::line::{LineInfo, LineSecInfo, bpf_line_info};
