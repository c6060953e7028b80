//! A table that is only read: its bytes, and where each record begins.
#![tactic(auto)]

mod filling;
mod finding;
mod forms;
mod indexing;
mod items;
mod length;
mod record;
mod record_words;
mod sizing;
mod table_ref;
mod text;
mod type_ref;
mod view;
mod walk;

pub use finding::Lookup;
pub use forms::{Entry, Member, Param, TypeWords, Variant};
pub use indexing::{Sections, Unindexed, index};
pub use items::Listed;
pub use record_words::RecordWords;
pub use table_ref::TableRef;
pub use type_ref::TypeRef;
pub use view::View;
