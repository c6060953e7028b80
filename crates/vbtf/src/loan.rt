//! A share of a loan of a value.

ghost use Rattle.std.specs.Prelude.{◌≡◌, ℕ};
ghost use base.Fml.{Share};
ghost use denote.Struct.Lending.{lent_at};
ghost use Rattle.vbtf.specs.Held.{loan_owns, coded_share};

use std::marker::Model;

/// A share of a loan of the value at a pointer. While it is held, the value is neither changed nor freed.
#[derive(Drop)]
pub struct Loan<T> {
    pub at: *mut T,
    pub ghost value: { T },
    pub ghost life: { ℕ },
    pub ghost share: { Share } by { coded_share },
}

impl<T> Model for Loan<T> {
    ghost also_owns = { λ l. loan_owns T.row l.at l.value l.life l.share };

    ghost also_shares = { λ l _ κ. lent_at T.row l.at l.value κ };
}

impl<T> Loan<T> {
    pub fn get(&self) -> &T
        ensures { result.now ≡ self.now.value }
    {
        unsafe { &*self.at }
    }
}
