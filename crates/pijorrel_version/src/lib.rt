// Which interface this library has, for a loader in C that may have been compiled with another header.
#![tactic(auto)]

ghost use Rattle.std.specs.Prelude.{◌≡◌};
ghost use Rattle.pijorrel_version.specs.Version.{version};

use states::{NEW_STATE, OLD_STATE};

const REVISION: u32 = 1;

// Equal to the header's PIJORREL_VERSION where the two fit.
pub fn pijorrel_version() -> u32
    ensures { result ≡ version }
{
    (REVISION * 1024 + OLD_STATE as u32) * 1024 + NEW_STATE as u32
}
