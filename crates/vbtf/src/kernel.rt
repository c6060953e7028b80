//! The description of a kernel by C, and the features that a rewrite asked about.

ghost use Rattle.std.specs.Prelude.{◌≡◌, ◌≤◌, length};
ghost use Rattle.btf_rewrite_model.specs.FeatureSet.{has_bit};
ghost use Rattle.vbtf.specs.Kernel.{policy_chosen, ids_chosen, ListsAnswers};

use btf::{BtfFeature, FeatureAnswer, FillPolicy, KsymsIds};
use btf_rewrite_model::has_bit;

/// The kernel that a table is rewritten for, and the ids of `.ksyms` in the table.
#[repr(C)]
#[derive(Drop)]
pub struct Kernel {
    /// A bit for each feature that the kernel has, by its number from 0 on: Func, FuncGlobal, DataSec, DataSecZero,
    /// Float, DeclTag, TypeTag, Enum64.
    pub features: u32,
    /// If this is not 0, a DATASEC that has a size and no entries gets an entry for a kernel that rejects a DATASEC
    /// without entries.
    pub fill_sized: u32,
    /// The id of the DATASEC `.ksyms`, or 0 if there is none.
    pub ksyms: u32,
    /// The id of the variable that replaces functions in it, or 0 if there is none.
    pub placeholder: u32,
}

/// The features that a rewrite asked about, in order.
#[repr(C)]
#[derive(Drop)]
pub struct Asked {
    /// The number of features.
    pub count: u32,
    /// Their numbers.
    pub features: [u8; 32],
    /// 1 for each that the kernel has, and 0 for one that it lacks.
    pub granted: [u8; 32],
}

impl Kernel {
    /// Whether the kernel has a feature.
    pub(crate) fn has(&self, feature: BtfFeature) -> bool
        ensures { result ≡ has_bit self.now.features feature }
    {
        has_bit(self.features, feature)
    }

    /// The policy for DATASECs that have a size and no entries.
    pub(crate) fn policy(&self) -> FillPolicy
        ensures { result ≡ policy_chosen self.now }
    {
        if self.fill_sized == 0 {
            FillPolicy::KeepSized
        } else {
            FillPolicy::FillSized
        }
    }

    /// The ids of `.ksyms`.
    pub(crate) fn ksyms_ids(&self) -> Option<KsymsIds>
        ensures { result ≡ ids_chosen self.now }
    {
        if self.ksyms == 0 {
            return None;
        }
        let placeholder_id = match self.placeholder {
            0 => None,
            id => Some(id),
        };
        Some(KsymsIds {
            datasec_id: self.ksyms,
            placeholder_id,
        })
    }
}

impl Asked {
    /// Writes the answers, in order.
    pub(crate) fn list(&mut self, answers: &[FeatureAnswer])
        requires { length answers.now ≤ 8 }
        ensures { ListsAnswers self.new answers.now }
    {
        for index in 0..answers.len() {
            let answer = answers[index];
            self.features[index] = answer.feature as u8;
            self.granted[index] = answer.granted as u8;
        }
        self.count = answers.len() as u32;
    }
}
