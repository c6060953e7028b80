//! The walk from a type over the types that it refers to.
//!
//! An explicit stack has the types that wait for the type after them.

ghost use Rattle.std.specs.Prelude.{◌≡◌, ◌<◌, true, length, OnOk, IfOk, IfErr};
ghost use Rattle.btf_order.specs.Errors.{IsOrderError, IsStepError};
ghost use Rattle.btf_order.specs.Shape.{use_of};
ghost use Rattle.btf_order.specs.Frame.{IsWalkFrame};
ghost use Rattle.btf_order.specs.Uses.{KnowsUses, IsUseFrame, UseStepIs};
ghost use Rattle.btf_order.specs.Progress.{KnowsOrder, Grows, NoneWaits, is_complete_in};
ghost use Rattle.btf_order.specs.Run.{WalkStepIs};

use crate::frame::Frame;
use crate::progress::{Progress, Visit};
use crate::shape::{Node, child_of};
use btf_plain::BtfError;
use btf_table::{Btf, allocator_of};

/// Where the walk goes from a type.
#[derive(Clone, Copy, Drop)]
enum Step {
    /// To a type that it refers to.
    Down(Node),
    /// Back, after the last one.
    Up,
}

/// Walks from a type, by value.
pub fn run(table: &Btf, root: u32, progress: &mut Progress) -> Result<(), BtfError>
    requires knows { KnowsOrder table.now.records progress.old }
    requires uses { KnowsUses table.now.records progress.old }
    requires root { root < length table.now.records }
    requires none_open { NoneWaits progress.old }
    ensures knows { OnOk result (KnowsOrder table.now.records progress.new) }
    ensures uses { OnOk result (KnowsUses table.now.records progress.new) }
    ensures grows { OnOk result (Grows progress.old progress.new) }
    ensures none_open { OnOk result (NoneWaits progress.new) }
    ensures error { IfErr result (λ e. IsOrderError table.now.records e) }
    ensures root { OnOk result (is_complete_in progress.new.marks.items root ≡ true) }
{
    let start = Node {
        id: root,
        through_pointer: false,
    };
    let Visit::Opens(node) = progress.visit(table, start)? else {
        return Ok(());
    };
    let mut below = Vec::new(allocator_of(table));
    let mut top = Frame::new(node);
    'steps: loop {
        match advance(table, &mut top, progress)? {
            Step::Down(node) => {
                below.push(top)?;
                top = Frame::new(node);
            }
            Step::Up => {
                let link = progress.close(table, &top)?;
                let Some(next) = below.pop() else {
                    return Ok(());
                };
                top = next.after(link);
            }
        }
    }
}

/// Goes over the types that a type refers to, up to the first one that has to be walked from.
fn advance(table: &Btf, top: &mut Frame, progress: &mut Progress) -> Result<Step, BtfError>
    requires knows { KnowsOrder table.now.records progress.old }
    requires frame { IsWalkFrame table.now.records progress.old.ids.items top.old }
    requires uses { KnowsUses table.now.records progress.old }
    requires use_frame { IsUseFrame table.now.records top.old }
    requires inside { top.old.node.id < length table.now.records }
    ensures knows { OnOk result (KnowsOrder table.now.records progress.new) }
    ensures grows { OnOk result (Grows progress.old progress.new) }
    ensures uses { OnOk result (KnowsUses table.now.records progress.new) }
    ensures use_frame { OnOk result (IsUseFrame table.now.records top.new) }
    ensures frame { OnOk result (IsWalkFrame table.now.records progress.new.ids.items top.new) }
    ensures node { OnOk result (top.new.node ≡ top.old.node) }
    ensures error { IfErr result (λ e.
        IsStepError table.now.records progress.old (use_of top.old.node) e) }
    ensures use_step { IfOk result (λ s. UseStepIs table.now.records top.new s) }
    ensures step { IfOk result (λ s.
        WalkStepIs table.now.records progress.old progress.new top.new s) }
{
    let btf_type = table.type_by_id(top.node.id)?;
    while let Some(node) = child_of(btf_type, top.node.through_pointer, top.next) {
        match progress.visit(table, node)? {
            Visit::Returns(link) => *top = top.after(link),
            Visit::Opens(node) => return Ok(Step::Down(node)),
        }
    }
    Ok(Step::Up)
}
