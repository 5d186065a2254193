// A trail: a program, and what another emulator of the machine held before each word that it executed.
ghost use Rattle.std.specs.Prelude.{◌≡◌};
ghost use Rattle.case_files.specs.Files.{checked};
ghost use Rattle.run_cases.specs.Trails.{stands_at, passed, passing, trailed, followed, trail_found};

use case_files::{Case, Found, copy, number, over_zeros, part};
use states::{OLD_BEHIND, OLD_STATE};

// What a program starts with.
const TAG: u32 = 0x5452414C;

// The bytes of an entry: address, registers, flags and Y.
const ENTRY: usize = 140;

// Whether a state that has not ended is the one that an entry recorded.
#[tactic(auto, using(case_files::proofs::Areas::is_same), unfolding(crate::specs::Trails::stands_at))]
fn stands_at(state: &[u8], entry: &[u8]) -> bool
    ensures { result ≡ stands_at state.now entry.now }
{
    (number(state, 144) == 0)
        & (number(state, 132) == number(entry, 0))
        & (number(state, OLD_BEHIND) == number(entry, 136))
        & (part(state, 0, 132) == part(entry, 4, 132))
}

// What a trail's program is, and where its image and its data lie.
#[derive(Clone, Copy)]
struct Program<'a> {
    image: &'a [u8],
    base: u32,
    db: u32,
}

impl<'a> Program<'a> {
    // Compares a state with an entry and passes the entry's word. An annulled word before it has no entry.
    fn pass(&self, state: &mut [u8; OLD_STATE], area: &mut [u8], entry: &[u8]) -> bool
        ensures { passed result state.new area.new ≡ passing self.now.image.now self.now.base self.now.db entry.now state.old area.old }
    {
        let annulled = u16::from(number(state, 140) != 0);
        pijorrel_old::pijorrel_old_run(self.image, self.base, self.db, state, area, annulled);
        let same = stands_at(state, entry);
        pijorrel_old::pijorrel_old_run(self.image, self.base, self.db, state, area, 1);
        same
    }

    // How many entries agree before the first that does not.
    fn follow(
        &self,
        state: &mut [u8; OLD_STATE],
        area: &mut [u8],
        entries: &[u8],
        count: u32,
    ) -> u32
        ensures { trailed result state.new area.new ≡ followed self.now.image.now self.now.base self.now.db entries.now count 0 state.old area.old }
    {
        for k in 0..count {
            let entry = part(entries, k as usize * ENTRY, ENTRY);
            if !self.pass(state, area, entry) {
                return k;
            }
        }
        count
    }
}

// Follows a program, in a data area of its size.
pub fn check(case: &Case, area: &mut [u8]) -> Found
    ensures { checked result area.new ≡ trail_found case.now.bytes.now case.now.at area.old }
{
    let count = case.number(5);
    let p = case.parts(count as usize * ENTRY);
    let mut state: [u8; OLD_STATE] = over_zeros(p.state);
    copy(area, p.before);
    let program = Program {
        image: p.image,
        base: case.number(2),
        db: case.number(3),
    };
    let entries = program.follow(&mut state, area, p.known, count);
    let agrees = (case.tag() == TAG) & (entries == count) & (*area == *p.after);
    Found {
        next: p.next,
        entries,
        agrees,
    }
}
