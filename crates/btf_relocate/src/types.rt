//! Comparisons of two types, each in its own table.

ghost use Rattle.std.specs.Prelude.{OnOk};
ghost use Rattle.btf_relocate_model.specs.Comparison as model;
ghost use Rattle.btf_relocate.specs.Comparing.{IsAsked, TakesWork, AdvancesIn};
ghost use Rattle.btf_relocate.specs.Gives.{Gives};
ghost use Rattle.btf_relocate.specs.Steps.{comparison};

mod names;
mod steps;
mod walk;

use btf_relocate_model::{Pair, RelocationError, Rule};
use btf_table::WALK_LIMIT;
use btf_view::TableRef;
use std::alloc::Global;
use std::collections::BTreeMap;
use walk::{Next, next_step, resolve_pair};

/// A comparison that has begun: the walk over pointees, elements and return types from a pair on.
#[derive(Clone, Copy, Debug)]
struct Frame {
    /// The pair with which the walk began.
    start: Pair,
    /// The pair at which the walk is.
    at: Pair,
    /// The number of further positions.
    left: usize,
    /// The next parameter or local member.
    index: usize,
    /// The next member of the target's type, for this local member.
    other: usize,
}

/// The pairs whose comparisons have begun, with their answers, and the comparisons that are not over, each inside the
/// one before it.
#[derive(Drop)]
struct Progress {
    pairs: BTreeMap<Pair, Option<bool>>,
    frames: Vec<Frame>,
}

/// Whether a type of the target is as a local type asks. Each pair of types is compared once.
///
/// Fails with `UnknownBtfType` and `MaximumTypeDepthReached` if a type on the way cannot be resolved, and with
/// `MaximumTypeDepthReached` of a local id after 32 pointees, elements and return types, or for a pair that is met
/// inside its own comparison.
pub fn types_alike(
    alloc: Global,
    rule: Rule,
    local: &TableRef<'_>,
    target: &TableRef<'_>,
    local_id: u32,
    target_id: u32,
) -> Result<bool, RelocationError>
    ensures { Gives (model.types_alike (comparison rule local.now target.now) local_id target_id)
        result }
{
    let root = Pair {
        local: local_id,
        target: target_id,
        is_pointee: false,
    };
    let mut progress = Progress {
        pairs: BTreeMap::new(alloc),
        frames: Vec::new(alloc),
    };
    let mut answer = ask(rule, local, target, &mut progress, &root)?;
    while let Some(frame) = progress.frames.pop() {
        answer = advance(alloc, rule, local, target, &mut progress, &frame, answer)?;
    }
    Ok(answer == Some(true))
}

/// Takes the next step of a comparison, which is inside those of `progress`.
fn advance(
    alloc: Global,
    rule: Rule,
    local: &TableRef<'_>,
    target: &TableRef<'_>,
    progress: &mut Progress,
    frame: &Frame,
    answer: Option<bool>,
) -> Result<Option<bool>, RelocationError>
    ensures runs { AdvancesIn frame.now answer
        (comparison rule local.now target.now) progress.old progress.new result }
    ensures fewer { OnOk result (TakesWork (comparison rule local.now target.now) frame.now
        progress.old progress.new) }
{
    match next_step(alloc, rule, local, target, frame, answer)? {
        Next::Ends(is_alike) => {
            progress.pairs.insert(frame.start, Some(is_alike))?;
            Ok(Some(is_alike))
        }
        Next::GoesOn(at) => {
            let frame = Frame {
                start: frame.start,
                at,
                left: frame.left.saturating_sub(1),
                index: 0,
                other: 0,
            };
            progress.frames.push(frame)?;
            Ok(None)
        }
        Next::Asks(pair, index, other) => {
            let frame = Frame {
                start: frame.start,
                at: frame.at,
                left: frame.left,
                index,
                other,
            };
            progress.frames.push(frame)?;
            ask(rule, local, target, progress, &pair)
        }
    }
}

/// The answer of a pair, if it is known; otherwise its comparison begins.
fn ask(
    rule: Rule,
    local: &TableRef<'_>,
    target: &TableRef<'_>,
    progress: &mut Progress,
    pair: &Pair,
) -> Result<Option<bool>, RelocationError>
    ensures { IsAsked (comparison rule local.now target.now) pair.now progress.old progress.new
        result }
{
    let start = resolve_pair(rule, local, target, pair)?;
    match progress.pairs.get(&start).copied() {
        Some(Some(is_alike)) => Ok(Some(is_alike)),
        Some(None) => Err(RelocationError::MaximumTypeDepthReached {
            type_id: start.local,
        }),
        None => {
            progress.pairs.insert(start, None)?;
            progress.frames.push(Frame {
                start,
                at: start,
                left: WALK_LIMIT,
                index: 0,
                other: 0,
            })?;
            Ok(None)
        }
    }
}
