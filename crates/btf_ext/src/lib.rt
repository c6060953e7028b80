//! The `.BTF.ext` section: function, line and relocation records of a program.
#![tactic(auto)]

mod ext;
mod header;
mod info;
mod read;
mod records;
mod sections;
mod words;

pub use ext::BtfExt;
pub use info::{FuncInfo, FuncSecInfo, LineInfo, LineSecInfo, bpf_func_info, bpf_line_info};
pub use sections::{SecInfo, SecInfoIter};
