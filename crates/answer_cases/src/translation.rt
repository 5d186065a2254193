// A case of the translator: an image, entries and the lengths of both buffers, and the answer with the places and the records that it counts.
ghost use Rattle.std.specs.Prelude.{◌≡◌, length};
ghost use Rattle.case_files.specs.Files.{part_of};
ghost use Rattle.answer_cases.specs.Translations.{counted_in, image_of, entries_of, translation_parts, answered, checked_both, translation_in, translation_found};

use case_files::{Case, Found, filled, holds, number, padded, part};
use pijorrel_translate::PijorrelAnswer;

// What a case starts with.
const TAG: u32 = 0x54524E53;

// The most bytes of a place table and of records: two places more than may be found, and two records for each that may.
const TABLE: usize = 131104;

const LIST: usize = 196608;

// The parts of a case, each as much of it as the file has, and where the next case starts. Each kind of case has a struct, as its parts differ.
#[derive(Clone, Copy)]
struct Parts<'a> {
    image: &'a [u8],
    entries: &'a [u8],
    places: &'a [u8],
    records: &'a [u8],
    next: usize,
}

// How many places or records a case has: those that its answer counts, and none beside a refusal.
fn counted(answer: u32, count: u32) -> u32
    ensures { result ≡ counted_in answer count }
{
    if answer == 0 { count } else { 0 }
}

impl<'a> Parts<'a> {
    // The parts of a case: nine numbers, an image, entries, places, records.
    #[tactic(auto, unfolding(crate::specs::Translations::translation_parts))]
    fn of(case: &Case<'a>) -> Parts<'a>
        ensures image { result.image.now ≡ image_of case.now.bytes.now case.now.at }
        ensures entries { result.entries.now ≡ entries_of case.now.bytes.now case.now.at }
        ensures places { let p = translation_parts case.now.bytes.now case.now.at in result.places.now ≡ part_of case.now.bytes.now p.places p.rows }
        ensures records { let p = translation_parts case.now.bytes.now case.now.at in result.records.now ≡ part_of case.now.bytes.now p.records p.bulk }
        ensures next { result.next ≡ (translation_parts case.now.bytes.now case.now.at).next }
    {
        let bytes = case.bytes;
        let extent = case.number(1);
        let size = case.number(3);
        let answer = case.number(6);
        let rows = counted(answer, case.number(7)) as usize * 16;
        let bulk = counted(answer, case.number(8)) as usize * 12;
        let image = case.at + 36;
        let entries = image + padded(extent);
        let places = entries + padded(size);
        let records = places + rows;
        Parts {
            image: part(bytes, image, extent as usize),
            entries: part(bytes, entries, size as usize),
            places: part(bytes, places, rows),
            records: part(bytes, records, bulk),
            next: records + bulk,
        }
    }
}

// Whether an answer is the known one.
#[tactic(auto, unfolding(crate::specs::Translations::answered))]
fn answers(known: &[u8], r: PijorrelAnswer) -> bool
    ensures { result ≡ answered known.now r.number r.first r.second }
{
    (r.number == number(known, 0))
        & (r.first == u64::from(number(known, 4)))
        & (r.second == u64::from(number(known, 8)))
}

// Runs a case in buffers of its lengths. It has one entry.
fn check_in(case: &Case, table: &mut [u8], list: &mut [u8]) -> Found
    ensures { checked_both result table.new list.new ≡ translation_in case.now.bytes.now case.now.at (length table.old) (length list.old) }
{
    let room = table.len() == case.number(4) as usize;
    let space = list.len() == case.number(5) as usize;
    let known = part(case.bytes, case.at + 24, 12);
    let p = Parts::of(case);
    let r = pijorrel_translate::pijorrel_translate(p.image, case.number(2), p.entries, table, list);
    let agrees = (case.tag() == TAG)
        & room
        & space
        & answers(known, r)
        & holds(table, p.places, 0)
        & holds(list, p.records, 0);
    Found::one(p.next, agrees)
}

// Runs a case, in buffers that held other bytes before. A case with longer buffers than there are here differs.
pub fn check(case: &Case) -> Found
    ensures { result ≡ translation_found case.now.bytes.now case.now.at }
{
    let mut table: [u8; TABLE] = filled(0xA5);
    let mut list: [u8; LIST] = filled(0x5A);
    let n = (case.number(4) as usize).min(TABLE);
    let m = (case.number(5) as usize).min(LIST);
    check_in(case, &mut table[..n], &mut list[..m])
}
