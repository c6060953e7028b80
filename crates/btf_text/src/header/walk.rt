//! The walk over the declarations of a header: each is written after the declarations and forward declarations that it
//! needs.
//!
//! An explicit stack has the types whose declarations wait for the types that they refer to.

use crate::error::TextError;
use crate::header::definition::{write_alias, write_definition, write_forward, write_typedef};
use crate::header::draft::Draft;
use btf_plain::BtfError;
use btf_records::BtfType;
use btf_table::{Btf, WALK_LIMIT, type_count};
use std::alloc::{AllocError, Global};
use std::fmt::Write;

/// The progress of a type.
#[derive(Clone, Copy)]
enum Mark {
    /// Its declaration is not written.
    New,
    /// It waits for the types that it refers to.
    Open,
    /// Its declaration is written.
    Written,
}

/// From where the walk comes to a type.
#[derive(Clone, Copy, PartialEq, Eq)]
enum Origin {
    /// From no type: the type itself is declared.
    Top,
    /// From the declaration of the TYPEDEF, STRUCT or UNION of this id.
    Inside(u32),
}

/// The need for another walk over a type without a declaration of its own.
#[derive(Clone, Copy, PartialEq, Eq)]
enum Walked {
    /// The walk did not come to the type.
    Never,
    /// Each type that it refers to is declared.
    Whole,
    /// Each one but the STRUCT or UNION of this id, in whose declaration it was.
    Within(u32),
}

/// The progress of a type.
#[derive(Clone, Copy)]
struct State {
    mark: Mark,
    /// Whether a forward declaration is written; for a TYPEDEF, its own declaration.
    is_forward: bool,
    walked: Walked,
}

/// What comes of a type to which the walk comes.
#[derive(Clone, Copy)]
enum Visit {
    /// Nothing has to be declared before.
    Passes,
    /// It is the STRUCT or UNION in whose declaration it is used.
    Contains,
    /// It waits for the types that it refers to.
    Waits(Frame),
}

/// A type that waits for the types that it refers to.
#[derive(Clone, Copy)]
struct Frame {
    type_id: u32,
    /// The index of the next type.
    next: usize,
    origin: Origin,
    /// A type that it refers to is the STRUCT or UNION whose declaration it is in.
    is_within: bool,
}

/// The declarations that were written.
#[derive(Drop)]
pub struct Walk {
    states: Vec<State>,
    stack: Vec<Frame>,
}

/// The type to which a type refers at an index.
fn child_of(btf_type: &BtfType, index: usize) -> Option<u32> {
    match btf_type {
        BtfType::Struct(t) => Some(t.members().get(index)?.btf_type),
        BtfType::Union(t) => Some(t.members().get(index)?.btf_type),
        BtfType::Typedef(t) if index == 0 => Some(t.btf_type()),
        BtfType::FuncProto(t) => match index.checked_sub(1) {
            None => Some(t.return_type()),
            Some(param) => Some(t.params().get(param)?.btf_type),
        },
        _ => None,
    }
}

/// Whether a type that refers to others has a declaration: a TYPEDEF, and a STRUCT or UNION with a name.
fn has_declaration(btf_type: &BtfType) -> bool {
    match btf_type {
        BtfType::Typedef(_) => true,
        BtfType::Struct(t) => t.name_offset() != 0,
        BtfType::Union(t) => t.name_offset() != 0,
        _ => false,
    }
}

/// The type behind pointers, arrays and modifiers, and its id: the first type that is none of these. The error is
/// `MaximumTypeDepthReached` if the first 32 types are.
fn behind<'a, W: Write>(
    draft: &Draft<'a, W>,
    type_id: u32,
) -> Result<(u32, &'a BtfType), BtfError> {
    let mut id = type_id;
    for _ in 0..WALK_LIMIT {
        id = draft.in_place_of(id);
        let btf_type = draft.table.type_by_id(id)?;
        id = match btf_type {
            BtfType::Ptr(t) => t.btf_type(),
            BtfType::Volatile(t) => t.btf_type(),
            BtfType::Const(t) => t.btf_type(),
            BtfType::Restrict(t) => t.btf_type(),
            BtfType::TypeTag(t) => t.btf_type(),
            BtfType::Array(t) => t.array().element_type,
            _ => return Ok((id, btf_type)),
        };
    }
    Err(BtfError::MaximumTypeDepthReached { type_id })
}

impl Frame {
    /// A type before the first type that it refers to.
    fn new(type_id: u32, origin: Origin) -> Frame {
        Frame {
            type_id,
            next: 0,
            origin,
            is_within: false,
        }
    }

    /// From where the walk comes to the types that this one refers to.
    fn inner_origin(&self, btf_type: &BtfType) -> Origin {
        if has_declaration(btf_type) {
            Origin::Inside(self.type_id)
        } else {
            self.origin
        }
    }
}

impl Walk {
    /// The walk before the first declaration.
    pub fn new(alloc: Global, table: &Btf) -> Result<Walk, AllocError> {
        let new = State {
            mark: Mark::New,
            is_forward: false,
            walked: Walked::Never,
        };
        Ok(Walk {
            states: vec![in alloc; new; type_count(table) as usize]?,
            stack: Vec::new(alloc),
        })
    }

    /// Writes the declaration of a type, and before it what it needs.
    pub fn declare<W: Write>(
        &mut self,
        draft: &mut Draft<'_, W>,
        type_id: u32,
    ) -> Result<(), TextError> {
        if draft.argument_list == Some(type_id) {
            return Ok(());
        }
        if let Visit::Waits(frame) = self.visit(draft, type_id, Origin::Top)? {
            self.stack.push(frame)?;
        }
        for _ in 0..u64::MAX {
            let Some(frame) = self.stack.pop() else {
                return Ok(());
            };
            self.advance(draft, frame)?;
        }
        Err(TextError::TooLong)
    }

    /// Goes on from a type to the types that it refers to, up to the first that waits for others, or back after the
    /// last one.
    fn advance<W: Write>(
        &mut self,
        draft: &mut Draft<'_, W>,
        frame: Frame,
    ) -> Result<(), TextError> {
        let mut frame = frame;
        let btf_type = draft.table.type_by_id(frame.type_id)?;
        let origin = frame.inner_origin(btf_type);
        for index in frame.next..usize::MAX {
            draft.count_step()?;
            let Some(child) = child_of(btf_type, index) else {
                return self.close(draft, frame, btf_type);
            };
            frame.next = index.saturating_add(1);
            if self.goes_down(draft, &mut frame, child, origin)? {
                return Ok(());
            }
        }
        Err(TextError::TooLong)
    }

    /// The walk comes from a type to one that it refers to. Returns whether this one waits for others, so that both are
    /// on the stack.
    fn goes_down<W: Write>(
        &mut self,
        draft: &mut Draft<'_, W>,
        frame: &mut Frame,
        child: u32,
        origin: Origin,
    ) -> Result<bool, TextError> {
        match self.visit(draft, child, origin)? {
            Visit::Passes => Ok(false),
            Visit::Contains => {
                frame.is_within = true;
                Ok(false)
            }
            Visit::Waits(inner) => {
                self.stack.push(*frame)?;
                self.stack.push(inner)?;
                Ok(true)
            }
        }
    }

    /// The state of a type.
    fn state_of(&mut self, type_id: u32) -> Result<&mut State, BtfError> {
        match self.states.get_mut(type_id as usize) {
            Some(state) => Ok(state),
            None => Err(BtfError::UnknownBtfType { type_id }),
        }
    }

    /// The walk comes to a type.
    fn visit<W: Write>(
        &mut self,
        draft: &mut Draft<'_, W>,
        type_id: u32,
        origin: Origin,
    ) -> Result<Visit, TextError> {
        let (id, btf_type) = behind(draft, type_id)?;
        match btf_type {
            BtfType::Struct(t) if t.name_offset() != 0 => self.visit_tagged(draft, id, origin),
            BtfType::Union(t) if t.name_offset() != 0 => self.visit_tagged(draft, id, origin),
            BtfType::Struct(_) | BtfType::Union(_) | BtfType::FuncProto(_) => {
                self.visit_nameless(id, origin)
            }
            BtfType::Typedef(_) => self.visit_typedef(draft, id),
            BtfType::Int(_) | BtfType::Fwd(_) => self.declare_once(draft, id, btf_type),
            BtfType::Enum(_) | BtfType::Enum64(_) if origin == Origin::Top => {
                self.declare_once(draft, id, btf_type)
            }
            _ => Ok(Visit::Passes),
        }
    }

    /// Writes the declaration of a type that needs no other declaration, if it is not written.
    fn declare_once<W: Write>(
        &mut self,
        draft: &mut Draft<'_, W>,
        type_id: u32,
        btf_type: &BtfType,
    ) -> Result<Visit, TextError> {
        let state = self.state_of(type_id)?;
        if matches!(state.mark, Mark::Written) {
            return Ok(Visit::Passes);
        }
        state.mark = Mark::Written;
        match btf_type {
            BtfType::Int(_) => write_alias(draft, type_id, btf_type)?,
            BtfType::Fwd(_) => write_forward(draft, type_id, btf_type)?,
            _ => write_definition(draft, type_id)?,
        }
        Ok(Visit::Passes)
    }

    /// The walk comes to a TYPEDEF. It is declared before the types that refer to it, even behind a pointer.
    fn visit_typedef<W: Write>(
        &mut self,
        draft: &mut Draft<'_, W>,
        type_id: u32,
    ) -> Result<Visit, TextError> {
        let state = self.state_of(type_id)?;
        match state.mark {
            Mark::New => self.open(type_id, Origin::Top),
            Mark::Open if !state.is_forward => {
                state.is_forward = true;
                write_typedef(draft, type_id)?;
                Ok(Visit::Passes)
            }
            _ => Ok(Visit::Passes),
        }
    }

    /// The walk comes to a STRUCT or UNION with a name. In the declaration of another type it needs a forward
    /// declaration, if there is none and it is not declared.
    fn visit_tagged<W: Write>(
        &mut self,
        draft: &mut Draft<'_, W>,
        type_id: u32,
        origin: Origin,
    ) -> Result<Visit, TextError> {
        let state = self.state_of(type_id)?;
        let is_new = matches!(state.mark, Mark::New);
        if is_new && origin == Origin::Top {
            return self.open(type_id, origin);
        }
        if matches!(state.mark, Mark::Written) || state.is_forward {
            return Ok(Visit::Passes);
        }
        if origin == Origin::Inside(type_id) {
            return Ok(Visit::Contains);
        }
        state.is_forward = true;
        let btf_type = draft.table.type_by_id(type_id)?;
        write_forward(draft, type_id, btf_type)?;
        Ok(Visit::Passes)
    }

    /// The walk comes to a type that is written where it is used. It goes on to the types that it refers to, if an
    /// earlier walk left one undeclared.
    fn visit_nameless(&mut self, type_id: u32, origin: Origin) -> Result<Visit, TextError> {
        let state = self.state_of(type_id)?;
        match state.walked {
            Walked::Whole => Ok(Visit::Passes),
            Walked::Within(container) if origin == Origin::Inside(container) => Ok(Visit::Contains),
            _ if matches!(state.mark, Mark::Open) => Ok(Visit::Passes),
            _ => self.open(type_id, origin),
        }
    }

    /// The walk goes on to the types that a type refers to.
    fn open(&mut self, type_id: u32, origin: Origin) -> Result<Visit, TextError> {
        self.state_of(type_id)?.mark = Mark::Open;
        Ok(Visit::Waits(Frame::new(type_id, origin)))
    }

    /// The walk goes back from a type.
    fn close<W: Write>(
        &mut self,
        draft: &mut Draft<'_, W>,
        frame: Frame,
        btf_type: &BtfType,
    ) -> Result<(), TextError> {
        let type_id = frame.type_id;
        if !has_declaration(btf_type) {
            return self.close_nameless(frame);
        }
        let state = self.state_of(type_id)?;
        state.mark = Mark::Written;
        match btf_type {
            BtfType::Typedef(_) if state.is_forward => Ok(()),
            BtfType::Typedef(_) => write_typedef(draft, type_id),
            _ => write_definition(draft, type_id),
        }
    }

    /// The walk goes back from a type that is written where it is used.
    fn close_nameless(&mut self, frame: Frame) -> Result<(), TextError> {
        let state = self.state_of(frame.type_id)?;
        state.mark = Mark::New;
        state.walked = match frame.origin {
            Origin::Inside(container) if frame.is_within => Walked::Within(container),
            _ => Walked::Whole,
        };
        if frame.is_within
            && let Some(outer) = self.stack.last_mut()
        {
            outer.is_within = true;
        }
        Ok(())
    }
}
