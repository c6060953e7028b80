//! The program `btfobj` over bytes and writers: its command line, and its commands.
#![tactic(auto)]

mod changes;
mod command;
mod compatibility;
mod fault;
mod in_place;
mod input_file;
mod part;
mod relocation;
mod report;
mod request;
mod rewrite;
mod split;
mod unlinked;

pub use changes::{Checked, check};
pub use compatibility::compat;
pub use fault::Fault;
pub use in_place::TableInPlace;
pub use input_file::InputFile;
pub use relocation::{Ending, Form, Relocated, asks_for_few_types, list_relocations, relocate};
pub use report::{dump, ext, header, layout};
pub use request::{Action, Relocation, Request, read_request, running_base};
pub use rewrite::{Rewrite, file_has_externs, sanitize, table_alone};
pub use unlinked::explain;
