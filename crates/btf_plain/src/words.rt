//! The words of a record after the third.

ghost use Rattle.std.specs.Prelude.{◌≡◌, ◌++◌, ◌<◌, ◌^◌, length, IfOk, OnOk, [], refl, ◌∷◌};
ghost use Rattle.std.specs.List.{AllByRecursion};
ghost use Rattle.btf_model.specs.Record as model;
ghost use Rattle.btf_model.specs.Spelling.{spell};
ghost use Rattle.btf_plain.specs.Error.{MeetsOrNoMemory};
ghost use Rattle.btf_plain.specs.Head.{ReadsWords, headed};

use crate::bytes::{push_array, split_word};
use crate::error::BtfError;
use crate::head::Head;
use btf_model::Endianness;
use std::alloc::{AllocError, Global};
use std::fmt;

/// The words of a record after the third, in the form in which the record stores them.
pub trait Words: Sized + Clone + Drop + fmt::Debug {
    ghost use Rattle.std.specs.Prelude.{ℕ, List};

    /// The words, in order.
    ghost words: { Self → List ℕ };

    /// The number of words, by vlen.
    ghost number: { ℕ → ℕ };

    /// What reading retains of the words.
    ghost kept: { List ℕ → List ℕ };

    /// The number of words of a record with this vlen.
    fn number(vlen: usize) -> usize
        requires { vlen < 2 ^ 16 }
        ensures value { result ≡ number vlen }
        ensures small { result < 2 ^ 32 };

    /// Reads the words from the front of bytes. Fails with `InvalidTypeInfo` if the bytes are too few.
    fn read(
        alloc: Global,
        bytes: &[u8],
        endianness: Endianness,
        vlen: usize,
    ) -> Result<Self, BtfError>
        ensures { MeetsOrNoMemory words result
            (ReadsWords kept (number vlen) endianness bytes.now) };

    /// Appends a record with this head and these words to bytes.
    fn append_to(
        &self,
        head: &Head,
        out: &mut Vec<u8>,
        endianness: Endianness,
    ) -> Result<(), AllocError>
        ensures written { OnOk result (out.new.items ≡ out.old.items
            ++ spell endianness (headed head.now (words self.now))) }
        ensures words_fit { OnOk result (AllByRecursion (λ w. w < 2 ^ 32)
            (model.words (headed head.now (words self.now)))) };

    /// A clone has the same words.
    ghost cloned: { (x y : Self) → Self.is_clone x y → words y ≡ words x };

    /// Reading does not change the words of a value.
    ghost words_kept: { (x : Self) → kept (words x) ≡ words x };

    /// Reading does not change the number of words.
    ghost length_kept: { (ws : List ℕ) → length (kept ws) ≡ length ws };
}

/// Words whose number does not depend on vlen. They are copied without an allocation.
pub trait Fixed: Words {
    ghost use Rattle.std.specs.Prelude.{◌≡◌, ℕ};

    /// They are cloned without an allocation.
    ghost is_copied: { (x : Self) → Self.is_infallible x };

    /// The number is the same for each vlen.
    ghost same_number: { (m n : ℕ) → Self.number m ≡ Self.number n };
}

/// No words.
impl Words for () {
    ghost words = { λ _. [] };

    ghost number = { λ _. 0 };

    ghost kept = { λ ws. ws };

    fn number(_vlen: usize) -> usize {
        0
    }

    fn read(
        _alloc: Global,
        _bytes: &[u8],
        _endianness: Endianness,
        _vlen: usize,
    ) -> Result<Self, BtfError> {
        Ok(())
    }

    fn append_to(
        &self,
        head: &Head,
        out: &mut Vec<u8>,
        endianness: Endianness,
    ) -> Result<(), AllocError> {
        push_array(out, endianness, &[head.name, head.info, head.third])
    }

    ghost cloned = { λ x y h. refl };

    ghost words_kept = { λ _. refl };

    ghost length_kept = { λ _. refl };
}

impl Fixed for () {
    ghost is_copied = { λ x. tt };

    ghost same_number = { λ _ _. refl };
}

/// One word.
impl Words for u32 {
    ghost words = { λ w. w ∷ [] };

    ghost number = { λ _. 1 };

    ghost kept = { λ ws. ws };

    fn number(_vlen: usize) -> usize {
        1
    }

    fn read(
        _alloc: Global,
        bytes: &[u8],
        endianness: Endianness,
        _vlen: usize,
    ) -> Result<Self, BtfError> {
        let (word, _) = split_word(bytes, endianness)?;
        Ok(word)
    }

    fn append_to(
        &self,
        head: &Head,
        out: &mut Vec<u8>,
        endianness: Endianness,
    ) -> Result<(), AllocError> {
        push_array(out, endianness, &[head.name, head.info, head.third, *self])
    }

    ghost cloned = { λ x y h i. h i ∷ [] };

    ghost words_kept = { λ _. refl };

    ghost length_kept = { λ _. refl };
}

impl Fixed for u32 {
    ghost is_copied = { λ x. tt };

    ghost same_number = { λ _ _. refl };
}
