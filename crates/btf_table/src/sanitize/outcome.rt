//! The outcome of a type's rule.

ghost use Rattle.std.specs.Prelude.{◌≡◌};
ghost use Rattle.std.specs.Result.{result_map_both};
ghost use Rattle.btf_table.specs.PassStep.{rule_outcome};

use btf_plain::BtfError;
use btf_records::BtfType;

/// What a type becomes.
#[derive(Drop)]
pub enum Outcome {
    /// It is unchanged.
    Same,
    /// It changes in place, as `deny` changes it.
    Denied,
    /// Another type replaces it.
    Other(BtfType),
}

/// The outcome of a rule that replaces the type, or leaves it unchanged if there is None.
pub fn outcome_of(made: Result<Option<BtfType>, BtfError>) -> Result<Outcome, BtfError>
    ensures { result ≡ result_map_both rule_outcome (λ e. e) made }
{
    match made {
        Ok(Some(new_type)) => Ok(Outcome::Other(new_type)),
        Ok(None) => Ok(Outcome::Same),
        Err(error) => Err(error),
    }
}
