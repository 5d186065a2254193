// A case of the new core: a state, a place table, records and data, and the state and the data after a run of a given count.
ghost use Rattle.std.specs.Prelude.{◌≡◌, ◌+◌};
ghost use Rattle.model.specs.StateBytes.{new_size};
ghost use Rattle.case_files.specs.Files.{part_of, checked};
ghost use Rattle.run_cases.specs.Runs.{new_parts, new_found};

use crate::ending::ended_in;
use case_files::{Case, Found, copy, over_zeros, padded, part};
use states::NEW_STATE;

// What a case starts with.
const TAG: u32 = 0x4E455743;

// Where a state has its end.
const END: usize = 140;

// The parts of a case, each as much of it as the file has, and where the next case starts. Each kind of case has a struct, as its parts differ.
#[derive(Clone, Copy)]
struct Parts<'a> {
    state: &'a [u8],
    places: &'a [u8],
    records: &'a [u8],
    before: &'a [u8],
    known: &'a [u8],
    after: &'a [u8],
    next: usize,
}

impl<'a> Parts<'a> {
    // The parts of a case: eight numbers, a state, a place table, records, data, a state, data.
    #[tactic(auto, unfolding(crate::specs::Runs::new_parts))]
    fn of(case: &Case<'a>) -> Parts<'a>
        ensures state { result.state.now ≡ part_of case.now.bytes.now (case.now.at + 32) new_size }
        ensures places { let p = new_parts case.now.bytes.now case.now.at in result.places.now ≡ part_of case.now.bytes.now p.places p.rows }
        ensures records { let p = new_parts case.now.bytes.now case.now.at in result.records.now ≡ part_of case.now.bytes.now p.records p.extent }
        ensures before { let p = new_parts case.now.bytes.now case.now.at in result.before.now ≡ part_of case.now.bytes.now p.before p.size }
        ensures known { let p = new_parts case.now.bytes.now case.now.at in result.known.now ≡ part_of case.now.bytes.now p.known new_size }
        ensures after { let p = new_parts case.now.bytes.now case.now.at in result.after.now ≡ part_of case.now.bytes.now p.after p.size }
        ensures next { result.next ≡ (new_parts case.now.bytes.now case.now.at).next }
    {
        let bytes = case.bytes;
        let rows = case.number(1);
        let extent = case.number(2);
        let size = case.number(6);
        let places = case.at + 32 + NEW_STATE;
        let records = places + padded(rows);
        let before = records + padded(extent);
        let known = before + padded(size);
        let after = known + NEW_STATE;
        Parts {
            state: part(bytes, case.at + 32, NEW_STATE),
            places: part(bytes, places, rows as usize),
            records: part(bytes, records, extent as usize),
            before: part(bytes, before, size as usize),
            known: part(bytes, known, NEW_STATE),
            after: part(bytes, after, size as usize),
            next: after + padded(size),
        }
    }
}

// Runs a case, in a data area of its size. It has one entry.
pub fn check(case: &Case, area: &mut [u8]) -> Found
    ensures { checked result area.new ≡ new_found case.now.bytes.now case.now.at area.old }
{
    let p = Parts::of(case);
    let mut state: [u8; NEW_STATE] = over_zeros(p.state);
    copy(area, p.before);
    let r = pijorrel_new::pijorrel_new_run(
        p.records,
        p.places,
        case.number(3),
        case.number(4),
        case.number(5),
        &mut state,
        area,
        (case.number(7) % 65536) as u16,
    );
    let agrees = (case.tag() == TAG) & ended_in(p.known, END, &state, r) & (*area == *p.after);
    Found::one(p.next, agrees)
}
