//! The computation of an alignment, with the alignments of the types that it needs.
//!
//! A type is *open* while it waits for another type. An explicit stack has the open types, each of which waits for the
//! type after it. If a type needs an open type, it contains itself.

ghost use Rattle.std.specs.Prelude.{OnOk};
ghost use Rattle.btf_layout.specs.Progress.{KnowsOutcomes, NoneOpen, IsKnown, StaysKnown, progress_in};

use crate::frame::Frame;
use crate::progress::{Progress, progress_of};
use btf_table::{Btf, allocator_of};
use std::alloc::AllocError;

/// Computes the outcome of a type, and of the types that it needs, if it is not known.
pub fn run(table: &Btf, root: u32, known: &mut [Progress]) -> Result<(), AllocError>
    requires known { KnowsOutcomes table.now.records known.old }
    requires closed { NoneOpen known.old }
    ensures known { OnOk result (KnowsOutcomes table.now.records known.new) }
    ensures closed { OnOk result (NoneOpen known.new) }
    ensures root { OnOk result (IsKnown (progress_in known.new root)) }
    ensures stays { OnOk result (StaysKnown known.old known.new) }
{
    let Progress::New = progress_of(known, root) else {
        return Ok(());
    };
    let mut below = Vec::new(allocator_of(table));
    let mut top = Frame::new(root);
    known[root as usize] = Progress::Open;
    'steps: loop {
        let step = top.step(table, known);
        if let Some(type_id) = step.starts(known) {
            known[type_id as usize] = Progress::Open;
            below.push(top)?;
            top = Frame::new(type_id);
            continue;
        }
        known[top.id as usize] = Progress::Known(step.outcome());
        let Some(next) = below.pop() else {
            return Ok(());
        };
        top = next;
    }
}
