//! The loader's step over an object file: the object with its BTF table rewritten for an old kernel.
//!
//! `sanitize_object` reads what a rewrite needs from the object, rewrites its table, and puts it back. The definitions
//! are in `btf_object_model`.
#![tactic(auto)]

mod error;
mod finalize;
mod kernel;
mod ksyms;
mod layout;
mod names;
mod sanitize;
mod table;
mod version;

pub use btf_object_model::TableReader;
pub use btf_rewrite_model::{BtfFeature, FeatureAnswer, FillPolicy, KsymsIds};
pub use error::SanitizeError;
pub use finalize::has_externs;
pub use kernel::Kernel;
pub use ksyms::ksyms_of;
pub use layout::ObjectLayout;
pub use names::NAME_LIMIT;
pub use sanitize::{
    sanitize_finalized, sanitize_object, sanitize_object_with, sanitize_parsed,
    sanitize_parsed_finalized,
};
