//! The version of the library.

ghost use Rattle.std.specs.Prelude.{◌≡◌, ◌*◌, ◌+◌, ◌^◌};

const MAJOR: u32 = 0;

const MINOR: u32 = 1;

const PATCH: u32 = 0;

/// The version of the library: the major version in bits 16 to 23, the minor in bits 8 to 15, the patch below.
#[unsafe(no_mangle)]
pub extern "C" fn vbtf_version() -> u32
    ensures { result ≡ MAJOR * 2 ^ 16 + MINOR * 2 ^ 8 + PATCH }
{
    MAJOR << 16 | MINOR << 8 | PATCH
}
