//! The words of a rewrite.

ghost use Rattle.std.specs.Prelude.{ℕ, List, IfSome, IfNone};
ghost use Rattle.btf_cli.specs.Setting.{IsNamedNumber};

use crate::number::{read_id, read_number};
use btf_rewrite_model::{BtfFeature, feature_named};

/// The word for filling DATASECs that have a size.
pub const FILL_SIZED: &str = "fill-sized";

/// A word of a rewrite, parsed.
#[derive(Clone, Copy)]
pub enum Word<'a> {
    /// The kernel has a feature.
    Grant(BtfFeature),
    /// DATASECs that have a size and no entries are filled.
    FillSized,
    /// The size of the section of a name.
    Section { name: &'a str, size: u64 },
    /// The offset of the symbol of a name.
    Symbol { name: &'a str, offset: u64 },
    /// The id of the DATASEC `.ksyms`.
    Ksyms(u32),
    /// The id of the VAR that replaces functions in it.
    Placeholder(u32),
}

/// The name before the last `=` of a text, and the number after it.
fn read_named(text: &str) -> Option<(&str, u64)>
    ensures some { IfSome result (λ named. IsNamedNumber text.now named.0.now named.1) }
    ensures none { IfNone result ((name : List ℕ) (n : ℕ) → IsNamedNumber text.now name n → ⊥) }
{
    let (name, number) = text.rsplit_once('=')?;
    Some((name, read_number(number)?))
}

impl<'a> Word<'a> {
    ghost use Rattle.std.specs.Prelude.{IfSome, IfNone};
    ghost use Rattle.btf_cli.specs.Setting.{Setting, Sets};
    ghost use Rattle.btf_cli.specs.Word.{setting_of};

    /// The word of this text, or None if it is invalid. Nothing is allocated.
    pub fn read(text: &'a str) -> Option<Word<'a>>
        ensures some { IfSome result (λ word. Sets text.now (setting_of word)) }
        ensures none { IfNone result ((setting : Setting) → Sets text.now setting → ⊥) }
    {
        if let Some(feature) = feature_named(text) {
            return Some(Word::Grant(feature));
        }
        if text == FILL_SIZED {
            return Some(Word::FillSized);
        }
        let (what, rest) = text.split_once(':')?;
        match what {
            "section" => {
                let (name, size) = read_named(rest)?;
                Some(Word::Section { name, size })
            }
            "symbol" => {
                let (name, offset) = read_named(rest)?;
                Some(Word::Symbol { name, offset })
            }
            "ksyms" => Some(Word::Ksyms(read_id(rest)?)),
            "placeholder" => Some(Word::Placeholder(read_id(rest)?)),
            _ => None,
        }
    }
}
