// What C calls of the old core, under the names of include/pijorrel.h. Each export is pijorrel_old's function.
#![tactic(auto)]

ghost use Rattle.std.specs.Prelude.{◌≡◌};
ghost use Rattle.model.specs.StateBytes.{after, old_begins, old_runs};

use machine::Ended;
use states::OLD_STATE;

// Begins at an address: registers, flags, Y, nesting and windows stay.
#[unsafe(no_mangle)]
pub extern "C" fn pijorrel_old_begin(pc: u32, state: &mut [u8; OLD_STATE])
    ensures { state.new ≡ old_begins pc state.old }
{
    pijorrel_old::pijorrel_old_begin(pc, state);
}

// Passes count words, or fewer where the run ends.
#[unsafe(no_mangle)]
pub extern "C" fn pijorrel_old_run(
    image: &[u8],
    base: u32,
    db: u32,
    state: &mut [u8; OLD_STATE],
    area: &mut [u8],
    count: u16,
) -> Ended
    ensures { after result.end result.number state.new area.new ≡ old_runs image.now base db count state.old area.old }
{
    pijorrel_old::pijorrel_old_run(image, base, db, state, area, count)
}
