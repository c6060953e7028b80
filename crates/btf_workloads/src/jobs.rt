//! The jobs.

mod compare;
mod hostile;
mod list;
mod load;
mod rewrite;

pub use crate::jobs::compare::relocate;
pub use crate::jobs::hostile::survive;
pub use crate::jobs::list::list;
pub use crate::jobs::load::load;
pub use crate::jobs::rewrite::{copy, rewrite};
