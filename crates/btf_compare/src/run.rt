//! The run of the comparison of types.
//!
//! A run starts with the pair of the call. A pair is *open* while its walk is not finished. When a walk reaches two
//! prototypes, it has one *pending* pair per parameter; the run compares the next one, and the walk continues with the
//! return types after the last. If a pending pair was not started before, the run starts it, and pushes the open pair
//! on an explicit stack. A pair whose walk ended with true is *known to be compatible*, and is not walked again. The
//! first pair that is not compatible ends the run with false.

ghost use Rattle.std.specs.Prelude.{◌≡◌, ℕ, ◌+◌, None, IsSome, [], ◌∷◌, ◌++◌, List, Result, OnOk, MatchOption, true, false};
ghost use Rattle.std.specs.BTreeSet.{IsEmpty};
ghost use Rattle.btf_model.specs.Fields.{HaveKinds};
ghost use Rattle.btf_compare.specs.Compared.{IsStarted, GainsOnly, NotesPrototypes, WalksTo, AreAt, frame_of, passed_in, progress_of, progress_compatible, Compares, ComparesFirst, StartsPair};
ghost use Rattle.btf_model.specs.Run.{new_frame};
ghost use Rattle.btf_compare.specs.PairMap.{known_progress, count, Learns};
ghost use Rattle.btf_compare.specs.Pairs.{pair_of};

use crate::entries::Progress;
use crate::frame::{Frame, Place};
use crate::pair_map::{Listed, NoneListed, PairMap};
use crate::position::ProtoPair;
use btf_plain::BtfError;
use btf_table::{Btf, allocator_of};
use std::alloc::{AllocError, Global};
use std::collections::BTreeSet;

/// A receiver of each pair that a run starts, in order.
pub trait Starts {
    ghost use Rattle.std.specs.Prelude.{ℕ, List, [], ◌∷◌, ◌++◌, OnOk, OnErr};

    /// The second value is the first after it received these pairs.
    ghost has_added: { Self → Self → List (ℕ × ℕ) → Type 0 };

    /// Reports a pair.
    fn add(&mut self, pair: (u32, u32)) -> Result<(), AllocError>
        ensures added { OnOk result ((first : Self) → (ids : List (ℕ × ℕ))
            → has_added first self.old ids → has_added first self.new (ids ++ pair ∷ [])) }
        ensures refused { OnErr result ((first : Self) → (ids : List (ℕ × ℕ))
            → has_added first self.old ids → has_added first self.new ids) };
}

/// A list that the pairs are appended to.
impl Starts for Vec<(u32, u32)> {
    ghost use Rattle.std.specs.Prelude.{◌≡◌, ◌++◌};

    ghost has_added = { λ first now ids. now.items ≡ first.items ++ ids };

    fn add(&mut self, pair: (u32, u32)) -> Result<(), AllocError> {
        self.push(pair)?;
        Ok(())
    }
}

/// A receiver that drops the pairs.
#[derive(Drop)]
pub struct Untraced;

impl Starts for Untraced {
    ghost has_added = { λ first now ids. Unit {0} };

    fn add(&mut self, _pair: (u32, u32)) -> Result<(), AllocError> {
        Ok(())
    }
}

/// The state of a run.
#[derive(Drop)]
struct Run {
    /// The open pairs that wait for the pair above them, the pair of the call first.
    below: Vec<Frame>,
    /// The started pairs, each with its progress.
    seen: PairMap,
    /// The pairs of long prototypes whose parameters are all known to be compatible. A walk that meets such prototypes
    /// again continues with their return types.
    passed: BTreeSet<(u32, u32)>,
}

impl Run {
    /// A run that has started no pair.
    fn new(alloc: Global) -> Self
        ensures below { result.below.items ≡ [] }
        ensures seen { (ids : ℕ × ℕ) → known_progress result.seen ids ≡ None }
        ensures counts { count result.seen ≡ 0 }
        ensures passed { IsEmpty result.passed }
    {
        Run {
            below: Vec::new(alloc),
            seen: PairMap::new(alloc),
            passed: BTreeSet::new(alloc),
        }
    }

    /// Whether a pair is known to be compatible. A pair that is still open is an error.
    #[inline(always)]
    fn is_known_compatible(&self, pair: (u32, u32)) -> Result<bool, BtfError>
        ensures { result ≡ progress_compatible pair.0 (known_progress self.now.seen pair) }
    {
        match self.seen.get(pair) {
            Some(Progress::Open) => Err(BtfError::MaximumTypeDepthReached { type_id: pair.0 }),
            Some(Progress::Compatible) => Ok(true),
            None => Ok(false),
        }
    }

    /// Records prototypes whose parameters are all known to be compatible, if they have many parameters.
    #[inline(always)]
    fn pass(&mut self, found: &ProtoPair<'_>) -> Result<(), AllocError>
        ensures passes { OnOk result (NotesPrototypes self.old.passed self.new.passed found.now) }
        ensures passed { OnOk result
            (GainsOnly self.old.passed self.new.passed (pair_of found.now.ids)) }
        ensures seen { self.new.seen ≡ self.old.seen }
        ensures below { self.new.below ≡ self.old.below }
    {
        if found.are_long() {
            self.passed.insert(found.ids)?;
        }
        Ok(())
    }

    /// Records that an open pair is compatible, and returns the open pair below it, whose walk continues.
    #[inline(always)]
    fn mark_compatible(&mut self, pair: (u32, u32)) -> Option<Frame>
        requires { IsSome (known_progress self.old.seen pair) }
        ensures next { MatchOption result (self.old.below.items ≡ [])
            (λ frame. self.old.below.items ≡ self.new.below.items ++ frame ∷ []) }
        ensures settled { Learns self.old.seen self.new.seen pair Progress.Compatible }
        ensures counts { count self.new.seen ≡ count self.old.seen }
        ensures passed { self.new.passed ≡ self.old.passed }
    {
        self.seen.update(pair, Progress::Compatible);
        self.below.pop()
    }
}

/// The progress of a pair after its first walk.
#[inline(always)]
fn progress_of(end: &Result<Place<'_>, BtfError>) -> Progress
    ensures { result ≡ progress_of end.now }
{
    match end {
        Ok(Place::Ends(true)) => Progress::Compatible,
        _ => Progress::Open,
    }
}

/// Starts a pair that was not started before: looks up both ids, the local one first, makes its frame, walks to the
/// first pending parameter pair or to the end, records the pair with its progress, and adds it to the list of starts.
/// The walk looks at no other pair and allocates nothing, so its result is returned last: if the pair cannot be
/// recorded, it is not added to the list.
#[inline(always)]
fn start<'a, L: Listed, S: Starts>(
    local: &'a Btf,
    target: &'a Btf,
    pair: (u32, u32),
    passed: &BTreeSet<(u32, u32)>,
    frame: &mut Frame,
    listed: &mut L,
    starts: &mut S,
) -> Result<Place<'a>, BtfError>
    requires { L.knows listed.old pair ≡ None }
    ensures { StartsPair local.now target.now passed.now pair frame.new result
        (L.learns listed.old listed.new) S.has_added starts.old starts.new }
{
    let local_type = local.type_by_id(pair.0)?;
    let target_type = target.type_by_id(pair.1)?;
    let alike = local_type.is_compatible(target_type);
    *frame = Frame::new(pair);
    let end = frame.begin(alike, local_type, target_type, local, target, passed);
    listed.remember(pair, progress_of(&end))?;
    starts.add(pair)?;
    end
}

/// Whether the types of a pair of ids are compatible. Most comparisons end with the walk of this pair, and record
/// nothing.
pub fn compare<S: Starts>(
    local: &Btf,
    target: &Btf,
    root: (u32, u32),
    starts: &mut S,
) -> Result<bool, BtfError>
    requires { S.has_added starts.old starts.old [] }
    ensures { Compares local.now target.now (pair_of root) result
        (S.has_added starts.old starts.new) }
{
    let alloc = allocator_of(local);
    // The contract's answer exists only if each record has a kind. A use of a table proves that its records have.
    let _ = allocator_of(target);
    let none = BTreeSet::new(alloc);
    let mut top = Frame::vacant();
    match start(
        local,
        target,
        root,
        &none,
        &mut top,
        &mut NoneListed,
        starts,
    )? {
        Place::Ends(answer) => Ok(answer),
        Place::Pending(found) => compare_on(local, target, top, found, starts),
    }
}

/// Whether the types of a pair of ids are compatible, after its walk has reached these prototypes. This is a separate
/// function because a function clears its whole stack frame on entry.
#[inline(never)]
fn compare_on<S: Starts>(
    local: &Btf,
    target: &Btf,
    first: Frame,
    prototypes: ProtoPair<'_>,
    starts: &mut S,
) -> Result<bool, BtfError>
    requires begins { IsStarted local.now target.now (pair_of first.pair) true }
    requires walked { WalksTo local.now target.now (λ _. false)
        (new_frame (pair_of first.pair)) (frame_of first) }
    requires here { AreAt local.now target.now first prototypes }
    requires kinds { HaveKinds target.now }
    ensures { ComparesFirst local.now target.now first.pair result
        S.has_added starts.old starts.new }
{
    let mut run = Run::new(allocator_of(local));
    run.seen.insert(first.pair, Progress::Open)?;
    let mut top = first;
    let mut inner = Frame::vacant();
    let mut place = Place::Pending(prototypes);
    'steps: loop {
        let found = match place {
            Place::Pending(found) => found,
            Place::Ends(false) => return Ok(false),
            Place::Ends(true) => {
                let Some(next) = run.mark_compatible(top.pair) else {
                    return Ok(true);
                };
                top = next;
                place = top.walk(local, target, &run.passed)?;
                continue;
            }
        };
        let Some(pair) = top.next_parameter(local, target, &found)? else {
            run.pass(&found)?;
            top.go_on(found.returns);
            place = top.walk(local, target, &run.passed)?;
            continue;
        };
        if run.is_known_compatible(pair)? {
            continue;
        }
        let end = start(
            local,
            target,
            pair,
            &run.passed,
            &mut inner,
            &mut run.seen,
            starts,
        )?;
        match end {
            Place::Ends(false) => return Ok(false),
            Place::Ends(true) => {}
            Place::Pending(inside) => {
                run.below.push(top)?;
                top = inner;
                place = Place::Pending(inside);
            }
        }
    }
}
