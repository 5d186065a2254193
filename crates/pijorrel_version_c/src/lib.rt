// What C calls to learn which interface the library has, under the name of include/pijorrel.h. The export is pijorrel_version's function.
#![tactic(auto)]

ghost use Rattle.std.specs.Prelude.{◌≡◌};
ghost use Rattle.pijorrel_version.specs.Version.{version};

// Equal to the header's PIJORREL_VERSION where the two fit.
#[unsafe(no_mangle)]
pub extern "C" fn pijorrel_version() -> u32
    ensures { result ≡ version }
{
    pijorrel_version::pijorrel_version()
}
