// A case of the old core: a state, an image and data, and the state and the data after a run of a given count.
ghost use Rattle.std.specs.Prelude.{◌≡◌};
ghost use Rattle.case_files.specs.Files.{checked};
ghost use Rattle.run_cases.specs.Runs.{old_found};

use crate::ending::ended_in;
use case_files::{Case, Found, copy, over_zeros};
use states::OLD_STATE;

// What a case starts with.
const TAG: u32 = 0x4F4C4443;

// Where a state has its end.
const END: usize = 144;

// Runs a case, in a data area of its size. It has one entry.
pub fn check(case: &Case, area: &mut [u8]) -> Found
    ensures { checked result area.new ≡ old_found case.now.bytes.now case.now.at area.old }
{
    let p = case.parts(OLD_STATE);
    let mut state: [u8; OLD_STATE] = over_zeros(p.state);
    copy(area, p.before);
    let r = pijorrel_old::pijorrel_old_run(
        p.image,
        case.number(2),
        case.number(3),
        &mut state,
        area,
        (case.number(5) % 65536) as u16,
    );
    let agrees = (case.tag() == TAG) & ended_in(p.known, END, &state, r) & (*area == *p.after);
    Found::one(p.next, agrees)
}
