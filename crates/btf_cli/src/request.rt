//! A request for a rewrite, in several words.

ghost use Rattle.std.specs.Prelude.{◌≡◌, ◌↔◌, None, Some, IsSome, OnSome};

use crate::word::{FILL_SIZED, Word};
use btf_rewrite_model::{BtfFeature, FillPolicy, feature_name};
use btf_table::KsymsIds;

/// The words of a rewrite, which are all valid, and the ids of `.ksyms` in them.
#[derive(Clone, Copy)]
pub struct Request<'a> {
    pub words: &'a [String],
    pub ksyms: Option<KsymsIds>,
}

/// Stores an id. If an id is stored already, that id stays, and None is returned.
fn store_id(place: &mut Option<u32>, id: u32) -> Option<()>
    ensures first { IsSome result ↔ (place.old ≡ None) }
    ensures kept { OnSome result (place.new ≡ Some id) }
{
    if place.is_some() {
        return None;
    }
    *place = Some(id);
    Some(())
}

impl<'a> Request<'a> {
    ghost use Rattle.std.specs.Prelude.{◌≡◌, IfSome, IfNone};
    ghost use Rattle.btf_cli.specs.Setting.{word_texts};
    ghost use Rattle.btf_cli.specs.Request.{has_word, asks_feature, policy_named, Requests};
    ghost use Rattle.btf_cli.specs.declared.request.Request.{Request};

    /// The request in these words, or None if they are no valid request.
    pub fn read(words: &'a [String]) -> Option<Request<'a>>
        ensures some { IfSome result (Requests (word_texts words.now)) }
        ensures none { IfNone result ((request : Request) → Requests (word_texts words.now) request
            → ⊥) }
    {
        let mut ksyms = None;
        let mut placeholder = None;
        for word in words {
            match Word::read(word.as_str())? {
                Word::Ksyms(id) => store_id(&mut ksyms, id)?,
                Word::Placeholder(id) => store_id(&mut placeholder, id)?,
                _ => {}
            }
        }
        let ksyms = match (ksyms, placeholder) {
            (Some(datasec_id), placeholder_id) => Some(KsymsIds {
                datasec_id,
                placeholder_id,
            }),
            (None, None) => None,
            (None, Some(_)) => return None,
        };
        Some(Request { words, ksyms })
    }

    /// Whether the request contains this word.
    fn has(&self, text: &str) -> bool
        ensures { result ≡ has_word self.now text.now }
    {
        self.words.iter().any(|word| word.as_str() == text)
    }

    /// Whether one of the words grants a feature.
    pub fn grants(&self, feature: BtfFeature) -> bool
        ensures { result ≡ asks_feature self.now feature }
    {
        self.has(feature_name(feature))
    }

    /// The policy for DATASECs that have a size and no entries.
    pub fn policy(&self) -> FillPolicy
        ensures { result ≡ policy_named self.now }
    {
        if self.has(FILL_SIZED) {
            FillPolicy::FillSized
        } else {
            FillPolicy::KeepSized
        }
    }
}
