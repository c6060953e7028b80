//! The causes of status 1.

use btf_plain::BtfError;
use thiserror::Error;

/// The cause of a command's failure.
#[derive(Debug, Drop, Error)]
pub enum Fault {
    /// Standard input failed.
    #[error("cannot read standard input")]
    Read,
    /// Standard output failed.
    #[error("cannot write standard output")]
    Write,
    /// The table is invalid, or the command failed on it.
    #[error(transparent)]
    Btf(BtfError),
}

impl From<BtfError> for Fault {
    ghost use Rattle.std.specs.Prelude.{◌≡◌};
    ghost use Rattle.btf_cli.specs.declared.fault.Fault.TheVariants.{Btf};

    ghost from_gives = { λ error fault. fault ≡ Btf error };

    fn from(error: BtfError) -> Fault {
        Fault::Btf(error)
    }
}
