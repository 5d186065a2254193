// What C calls of the new core, under the names of include/pijorrel.h. Each export is pijorrel_new's function.
#![tactic(auto)]

ghost use Rattle.std.specs.Prelude.{◌≡◌, []};
ghost use Rattle.model.specs.StateBytes.{after, new_begins, new_runs};

use machine::Ended;
use states::NEW_STATE;

// Begins at an address: registers, flags, Y, nesting and windows stay.
#[unsafe(no_mangle)]
pub extern "C" fn pijorrel_new_begin(
    places: &[u8],
    base: u32,
    size: u32,
    a: u32,
    state: &mut [u8; NEW_STATE],
) -> Ended
    ensures { after result.end result.number state.new [] ≡ new_begins places.now base size a state.old }
{
    pijorrel_new::pijorrel_new_begin(places, base, size, a, state)
}

// Does count records, or fewer where the run ends.
#[unsafe(no_mangle)]
pub extern "C" fn pijorrel_new_run(
    records: &[u8],
    places: &[u8],
    base: u32,
    size: u32,
    db: u32,
    state: &mut [u8; NEW_STATE],
    area: &mut [u8],
    count: u16,
) -> Ended
    ensures { after result.end result.number state.new area.new ≡ new_runs records.now places.now base size db count state.old area.old }
{
    pijorrel_new::pijorrel_new_run(records, places, base, size, db, state, area, count)
}
