//! The types that the walk has come to, and the order of the declarations so far.

ghost use Rattle.std.specs.Prelude.{◌≡◌, ◌<◌, ◌≤◌, length, slice_get, Some, true, false, IfOk, OnOk, IfErr};
ghost use Rattle.btf_order_model.specs.Order.{value_types_in};
ghost use Rattle.btf_records.specs.BtfType.{record_of};
ghost use Rattle.btf_plain.specs.declared.error.BtfError.TheVariants.{MaximumTypeDepthReached, OutOfMemory};
ghost use Rattle.btf_order.specs.Errors.{IsVisitError};
ghost use Rattle.btf_order.specs.Shape.{use_of};
ghost use Rattle.btf_order_model.specs.Uses.{uses_in};
ghost use Rattle.btf_order.specs.Frame.{IsWalkFrame, IsCovered, LinkIs, is_done};
ghost use Rattle.btf_order.specs.Uses.{KnowsUses, IsUseFrame, UseLinkIs, VisitedUseIs};
ghost use Rattle.btf_order.specs.Progress.{KnowsOrder, NoneWaits, Grows, Closes, IsListed, HasLeft, LeavesWalks, VisitIs, IsMarked, IsBehind, is_complete_in, is_open_mark, is_open_walk, left_over};

use crate::frame::{Frame, Link};
use crate::shape::{Node, Passing, is_alone, is_listed, passing_of, shape_of};
use btf_plain::BtfError;
use btf_records::BtfType;
use btf_table::{Btf, allocator_of, type_count};

/// How often the walk comes to a type through pointers and goes on to the types that it refers to.
const WALKS: u32 = 16;

/// The progress of a type to which the walk comes through no pointer.
#[derive(Clone, Copy, Drop)]
pub enum Mark {
    /// The walk did not come to the type.
    New,
    /// The type waits for another type.
    Open,
    /// A walk to the type finds nothing to declare.
    Complete,
}

/// The progress of a type to which the walk comes through pointers.
#[derive(Clone, Copy, Drop)]
pub struct Walks {
    /// How often the walk may go on from the type.
    left: u32,
    /// Whether the type waits for another type.
    is_open: bool,
    /// The next walk finds something only when this type is complete.
    leaf: u32,
}

/// What the walk does at a type.
#[derive(Clone, Copy, Drop)]
pub enum Visit {
    /// It goes back with this result.
    Returns(Link),
    /// It goes on to the types that this one refers to.
    Opens(Node),
}

/// The types that the walk has come to, and the order of the declarations so far.
#[derive(Drop)]
pub struct Progress {
    marks: Vec<Mark>,
    walks: Vec<Walks>,
    referenced: Vec<bool>,
    listed: Vec<bool>,
    /// The ids of the declared types.
    pub ids: Vec<u32>,
}

impl Progress {
    /// The progress before the first type.
    pub fn new(table: &Btf, referenced: Vec<bool>) -> Result<Self, BtfError>
        requires { length referenced.items ≡ length table.now.records }
        ensures knows { IfOk result (λ p. KnowsOrder table.now.records p) }
        ensures none_open { IfOk result (λ p. NoneWaits p) }
        ensures uses { IfOk result (λ p. KnowsUses table.now.records p) }
        ensures error { IfErr result (λ e. e ≡ OutOfMemory) }
    {
        let alloc = allocator_of(table);
        let count = type_count(table) as usize;
        let walks = Walks {
            left: WALKS,
            is_open: false,
            leaf: 0,
        };
        Ok(Progress {
            marks: vec![in alloc; Mark::New; count]?,
            walks: vec![in alloc; walks; count]?,
            referenced,
            listed: vec![in alloc; false; count]?,
            ids: Vec::new(alloc),
        })
    }

    /// Whether a walk to a type finds nothing to declare.
    pub fn is_complete(&self, id: u32) -> bool
        ensures { result ≡ is_complete_in self.now.marks.items id }
    {
        matches!(self.marks.get(id as usize), Some(Mark::Complete))
    }

    /// Marks a type as complete if a walk from it finds nothing, and returns whether it did. Nothing else changes.
    #[inline(always)]
    pub fn pass(&mut self, table: &Btf, id: u32) -> bool
        requires knows { KnowsOrder table.now.records self.old }
        requires uses { KnowsUses table.now.records self.old }
        requires inside { id < length table.now.records }
        ensures knows { KnowsOrder table.now.records self.new }
        ensures uses { KnowsUses table.now.records self.new }
        ensures grows { Grows self.old self.new }
        ensures none_open { NoneWaits self.old → NoneWaits self.new }
        ensures complete { result ≡ true → is_complete_in self.new.marks.items id ≡ true }
        ensures same { result ≡ false → self.new ≡ self.old }
    {
        let Ok(btf_type) = table.type_by_id(id) else {
            return false;
        };
        if !is_alone(btf_type) {
            return false;
        }
        self.complete(id);
        true
    }

    /// Marks a type as complete: a later walk to it finds nothing to declare.
    #[inline(always)]
    fn complete(&mut self, id: u32)
        requires { id < length self.old.marks.items }
        ensures left { HasLeft self.old self.new id true }
        ensures walks { self.new.walks ≡ self.old.walks }
    {
        self.marks[id as usize] = Mark::Complete;
    }

    /// The walk comes to a type.
    pub fn visit(&mut self, table: &Btf, node: Node) -> Result<Visit, BtfError>
        requires knows { KnowsOrder table.now.records self.old }
        requires uses { KnowsUses table.now.records self.old }
        ensures knows { OnOk result (KnowsOrder table.now.records self.new) }
        ensures uses { OnOk result (KnowsUses table.now.records self.new) }
        ensures grows { OnOk result (Grows self.old self.new) }
        ensures visited { IfOk result (λ v. VisitedUseIs table.now.records node v) }
        ensures visit { IfOk result (λ v.
            VisitIs table.now.records self.old self.new node v) }
        ensures error { IfErr result (λ e.
            IsVisitError table.now.records self.old (use_of node) e) }
    {
        if self.is_complete(node.id) {
            return Ok(Visit::Returns(Link::complete()));
        }
        let btf_type = table.type_by_id(node.id)?;
        match passing_of(btf_type, node.through_pointer) {
            Passing::Forward => Ok(Visit::Returns(Link::weak(node.id))),
            Passing::AsByValue => self.open(node.id),
            Passing::Behind => self.open_behind(node.id),
        }
    }

    /// Opens a type to which the walk comes through no pointer.
    fn open(&mut self, id: u32) -> Result<Visit, BtfError>
        requires inside { id < length self.old.marks.items }
        requires incomplete { is_complete_in self.old.marks.items id ≡ false }
        ensures opened { IfOk result (λ v. IsMarked self.old self.new id v) }
        ensures error { IfErr result (λ e. (e ≡ MaximumTypeDepthReached id)
            × (is_open_mark (slice_get self.old.marks.items id) ≡ true)) }
    {
        match self.marks[id as usize] {
            Mark::New => {
                self.marks[id as usize] = Mark::Open;
                Ok(Visit::Opens(Node {
                    id,
                    through_pointer: false,
                }))
            }
            _ => Err(BtfError::MaximumTypeDepthReached { type_id: id }),
        }
    }

    /// Opens a type to which the walk comes through a pointer, if it may find something new.
    fn open_behind(&mut self, id: u32) -> Result<Visit, BtfError>
        requires { id < length self.old.walks.items }
        ensures opened { IfOk result (λ v. IsBehind self.old self.new id v) }
        ensures error { IfErr result (λ e. (e ≡ MaximumTypeDepthReached id)
            × (is_open_walk (slice_get self.old.walks.items id) ≡ true)) }
    {
        let walks = self.walks[id as usize];
        if walks.is_open {
            return Err(BtfError::MaximumTypeDepthReached { type_id: id });
        }
        if walks.left == 0 || !(walks.leaf == 0 || self.is_complete(walks.leaf)) {
            return Ok(Visit::Returns(Link::weak(walks.leaf)));
        }
        self.walks[id as usize] = Walks {
            left: walks.left - 1,
            is_open: true,
            leaf: walks.leaf,
        };
        Ok(Visit::Opens(Node {
            id,
            through_pointer: true,
        }))
    }

    /// The walk goes back from a type: it is declared after all that it has by value.
    pub fn close(&mut self, table: &Btf, frame: &Frame) -> Result<Link, BtfError>
        requires knows { KnowsOrder table.now.records self.old }
        requires frame { IsWalkFrame table.now.records self.old.ids.items frame.now }
        requires last { length (value_types_in table.now.records frame.now.node.id)
            ≤ frame.now.next }
        requires uses { KnowsUses table.now.records self.old }
        requires use_frame { IsUseFrame table.now.records frame.now }
        requires last_use { length (uses_in table.now.records (use_of frame.now.node))
            ≤ frame.now.next }
        requires inside { frame.now.node.id < length table.now.records }
        ensures knows { OnOk result (KnowsOrder table.now.records self.new) }
        ensures uses { OnOk result (KnowsUses table.now.records self.new) }
        ensures use_link { IfOk result (λ l.
            UseLinkIs table.now.records frame.now.node l) }
        ensures grows { OnOk result (Grows self.old self.new) }
        ensures closes { OnOk result (Closes self.old self.new (use_of frame.now.node)) }
        ensures link { IfOk result (λ l.
            LinkIs table.now.records self.new.ids.items frame.now.node l) }
        ensures complete { OnOk result (frame.now.node.through_pointer ≡ false
            → is_complete_in self.new.marks.items frame.now.node.id ≡ true) }
        ensures less { OnOk result (left_over self.new ≤ left_over self.old) }
        ensures error { IfErr result (λ e. e ≡ OutOfMemory) }
    {
        let btf_type = table.type_by_id(frame.node.id)?;
        self.place(table, frame, btf_type)?;
        let link = frame.link(shape_of(btf_type));
        self.leave(frame, link);
        Ok(link)
    }

    /// Appends a type to the order, if it is declared and all that it has by value is declared.
    fn place(&mut self, table: &Btf, frame: &Frame, btf_type: &BtfType) -> Result<(), BtfError>
        requires knows { KnowsOrder table.now.records self.old }
        requires frame { IsWalkFrame table.now.records self.old.ids.items frame.now }
        requires last { length (value_types_in table.now.records frame.now.node.id)
            ≤ frame.now.next }
        requires here { slice_get table.now.records frame.now.node.id
            ≡ Some (record_of btf_type.now) }
        ensures knows { OnOk result (KnowsOrder table.now.records self.new) }
        ensures grows { OnOk result (Grows self.old self.new) }
        ensures covered { OnOk result (is_done frame.now ≡ true
            → IsCovered table.now.records self.new.ids.items frame.now.node.id) }
        ensures marks { OnOk result (self.new.marks ≡ self.old.marks) }
        ensures walks { OnOk result (self.new.walks ≡ self.old.walks) }
        ensures error { IfErr result (λ e. e ≡ OutOfMemory) }
    {
        let id = frame.node.id;
        if !frame.is_done() {
            return Ok(());
        }
        if is_listed(btf_type, self.referenced[id as usize]) {
            return self.list(id);
        }
        Ok(())
    }

    /// Appends a type to the order, if it is not there.
    fn list(&mut self, id: u32) -> Result<(), BtfError>
        requires { id < length self.old.listed.items }
        ensures listed { OnOk result (IsListed self.old self.new id) }
        ensures error { IfErr result (λ e. e ≡ OutOfMemory) }
    {
        if !self.listed[id as usize] {
            self.ids.push(id)?;
            self.listed[id as usize] = true;
        }
        Ok(())
    }

    /// A type is open no more.
    fn leave(&mut self, frame: &Frame, link: Link)
        requires marks { frame.now.node.id < length self.old.marks.items }
        requires walks { frame.now.node.id < length self.old.walks.items }
        ensures left { HasLeft self.old self.new frame.now.node.id link.is_settled }
        ensures walks { LeavesWalks self.old self.new frame.now.node }
    {
        let id = frame.node.id;
        if frame.node.through_pointer {
            self.walks[id as usize] = Walks {
                left: self.walks[id as usize].left,
                is_open: false,
                leaf: link.leaf,
            };
        }
        if link.is_settled {
            self.complete(id);
        }
    }
}
