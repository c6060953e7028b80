//! The handle through which C holds a table.

ghost use Rattle.std.specs.Prelude.{◌≡◌, ◌≢◌, ℕ, length};
ghost use base.Fml.{Share};
ghost use Rattle.vbtf.specs.declared.opened.Opened.{Opened};
ghost use Rattle.vbtf.specs.Held.{held, coded_opened, coded_share};
ghost use Rattle.vbtf.specs.Lent.{AreLentFrom};

use crate::lent_name::Name;
use crate::loan::Loan;
use crate::name::names_from;
use crate::opened::Opened;
use crate::parts::Parts;
use std::alloc::Global;
use std::marker::{Model, Send};
use std::mem::replace;
use std::ptr::null_mut;

/// The state of a handle that owns its table.
pub(crate) const OWNED: u32 = 1;

/// The state of a handle that holds a share of a loan.
pub(crate) const LENT: u32 = 2;

/// A handle of a table: a pointer and a state. A handle of zeroes is closed.
///
/// In state 1 the handle owns the table, and `vbtf_close` frees it. In state 2 it holds a share of a loan of the table:
/// the table can be read through it, and does not change while such a handle is in use.
#[repr(C)]
#[derive(Drop)]
pub struct Handle {
    at: *mut u8,
    state: u32,
    /// The table, the `.BTF.ext` and the index of the handle, if it is not closed.
    pub ghost opened: { Opened } by { coded_opened },
    /// The lifetime of the loan, and the share of its token, in state 2.
    pub ghost life: { ℕ },
    pub ghost share: { Share } by { coded_share },
}

impl Model for Handle {
    ghost also_owns = { λ h. held h.at h.state h.opened h.life h.share };
}

impl Handle {
    /// A closed handle.
    pub(crate) fn none() -> Handle
        ensures { result.state ≡ 0 }
    {
        Handle {
            at: null_mut(),
            state: 0,
        }
    }

    /// The state.
    pub(crate) fn read_state(&mut self) -> u32
        ensures { (result ≡ self.old.state) × (self.new ≡ self.old) }
    {
        self.state
    }

    /// The handle that owns the table of a box.
    pub(crate) fn from_parts(parts: Parts<Opened, Global>) -> Handle
        ensures { (result.state ≡ 1) × (result.opened ≡ parts.value) }
    {
        let Parts { at, alloc: _ } = parts;
        Handle {
            at: at as *mut u8,
            state: 1,
        }
    }

    /// The box of the table that the handle owns.
    pub(crate) fn to_parts(self, alloc: Global) -> Parts<Opened, Global>
        requires { self.state ≡ 1 }
        ensures { result.value ≡ self.opened }
    {
        let Handle { at, state: _ } = self;
        Parts {
            at: at as *mut Opened,
            alloc,
        }
    }

    /// The handle that holds a share of a loan.
    pub(crate) fn from_loan(loan: Loan<Opened>) -> Handle
        ensures { (result.at ≡ loan.at) × (result.state ≡ 2) × (result.opened ≡ loan.value)
            × (result.life ≡ loan.life) × (result.share ≡ loan.share) }
    {
        let Loan { at } = loan;
        Handle {
            at: at as *mut u8,
            state: 2,
        }
    }

    /// The share of a loan that the handle holds.
    pub(crate) fn to_loan(self) -> Loan<Opened>
        requires { self.state ≡ 2 }
        ensures { (result.at ≡ self.at) × (result.value ≡ self.opened) × (result.life ≡ self.life)
            × (result.share ≡ self.share) }
    {
        let Handle { at, state: _ } = self;
        Loan {
            at: at as *mut Opened,
        }
    }

    /// The strings of the table from an offset on, up to and with their last zero byte, lent for as long as the loan
    /// lasts.
    pub(crate) fn names_at(&mut self, offset: u32) -> Name
        requires { self.old.state ≡ 2 }
        ensures { (self.new ≡ self.old)
            × AreLentFrom self.old.opened.btf.strings self.old.life offset
            result.bytes result.len result.life }
    {
        let opened = unsafe { &*(self.at as *mut Opened) };
        let names = names_from(opened, offset);
        Name {
            at: names.as_ptr(),
            len: names.len(),
        }
    }
}

unsafe impl Send for Handle {}

/// The handle that owns a table.
pub(crate) fn owner(whole: Box<Opened>) -> Handle
    ensures { (result.state ≡ 1) × (result.opened ≡ whole.value) }
{
    Handle::from_parts(Parts::of(whole))
}
