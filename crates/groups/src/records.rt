// The records of all groups, three numbers each, big-endian, in bytes that the caller lends. What is put is typed, so that a record's number
// and a source address, both numbers once written, cannot stand for each other.
ghost use Rattle.std.specs.Prelude.{◌≡◌, ℕ, ◌+◌, ◌*◌, ◌≤◌, ◌<◌, [], ◌∷◌, length};
ghost use Rattle.numbers.specs.Number.{numbers_of};
ghost use Rattle.model.specs.declared.Place.{Place};
ghost use Rattle.model.specs.Places.{plain, which_of};
ghost use Rattle.model.specs.Records.{in_full, bicc_group, group_of, held_group_of, group, record_numbers, records_numbers, records_from};
ghost use Rattle.places.specs.Control.{transferred};
ghost use Rattle.places.specs.Table.{place_in, places_in};
ghost use Rattle.groups.specs.Layout.{recorded, first_in, first_of, needed, Pushed, Puts, HasRoom};

use machine::{SourcePc, TargetPc};
use model::{Image, Place, target};
use places::control::untaken;
use places::table::{Rows, address, is_held, next};
use words::Flow;

// A record, by its kinds from 1 to 7, of which the last has an end for an address outside and one for an illegal word.
#[derive(Clone, Copy)]
pub enum Record {
    DoWord(u32),
    Link(SourcePc),
    Hold(u32, SourcePc),
    GoIf(u32, TargetPc),
    GoTo(TargetPc),
    GoHeld,
    Outside(SourcePc),
    Illegal(SourcePc),
}

// Where the first record of each place stands: as the table has it, and past all records where the table has it not.
#[derive(Clone, Copy)]
struct Firsts<'a> {
    rows: Rows<'a>,
    past: TargetPc,
}

impl Firsts<'_> {
    #[inline(always)]
    fn of(self, x: Place) -> TargetPc
        ensures { result.0 ≡ first_of self.entry x }
    {
        match self.rows.find(x) {
            Some(i) => TargetPc(self.rows.first_record(i)),
            None => self.past,
        }
    }

    #[inline(always)]
    fn of_plain(self, p: SourcePc) -> TargetPc
        ensures { result.0 ≡ first_of self.entry (plain p.0) }
    {
        self.of(Place::Pair(p.0, p.further(4).0))
    }
}

// A record's kind and the two numbers after it.
#[inline(always)]
#[tactic(auto, unfolding(crate::specs::Layout::recorded, model::specs::Records::record_numbers))]
fn numbers_of(x: Record) -> (u32, u32, u32)
    ensures { result.0 ∷ result.1 ∷ result.2 ∷ [] ≡ record_numbers (recorded x) [] }
{
    match x {
        Record::DoWord(word) => (1, word, 0),
        Record::Link(p) => (2, p.0, 0),
        Record::Hold(word, p) => (3, word, p.0),
        Record::GoIf(cond, to) => (4, cond, to.0),
        Record::GoTo(to) => (5, to.0, 0),
        Record::GoHeld => (6, 0, 0),
        Record::Outside(p) => (7, 2, p.0),
        Record::Illegal(p) => (7, 3, p.0),
    }
}

// The records put so far, in bytes that the caller lends.
#[derive(Drop)]
pub struct Records<'a> {
    pub bytes: &'a mut [u8],
    pub count: usize,
}

impl Records<'_> {
    #[inline(always)]
    fn push(&mut self, x: Record)
        requires { 12 * self.old.count + 12 ≤ length self.old.bytes.now }
        ensures { Pushed self.old (recorded x ∷ []) self.new }
    {
        let (kind, first, second) = numbers_of(x);
        let at = 12 * self.count;
        numbers::write_number(self.bytes, at, kind);
        numbers::write_number(self.bytes, at + 4, first);
        numbers::write_number(self.bytes, at + 8, second);
        self.count += 1;
    }

    // Puts the group of a Bicc.
    #[inline(always)]
    fn put_branch(&mut self, firsts: Firsts<'_>, cond: u32, annul: bool, t: SourcePc, n: SourcePc)
        requires { HasRoom (bicc_group (which_of cond) cond annul t.0 n.0) self.old }
        ensures { Puts (first_of firsts.entry) (bicc_group (which_of cond) cond annul t.0 n.0) self.old self.new }
    {
        match cond {
            0 => self.push(Record::GoTo(firsts.of_plain(untaken(annul, n)))),
            8 if annul => self.push(Record::GoTo(firsts.of_plain(t))),
            8 => self.push(Record::GoTo(firsts.of(Place::Pair(n.0, t.0)))),
            _ => {
                let taken = firsts.of(Place::Pair(n.0, t.0));
                let other = firsts.of_plain(untaken(annul, n));
                self.push(Record::GoIf(cond, taken));
                self.push(Record::GoTo(other));
            }
        }
    }

    // Puts the group of a word at (p, n).
    #[inline(always)]
    fn put_word(&mut self, firsts: Firsts<'_>, f: Flow, word: u32, p: SourcePc, n: SourcePc)
        requires { HasRoom (group_of (transferred f) word p.0 n.0) self.old }
        ensures { Puts (first_of firsts.entry) (group_of (transferred f) word p.0 n.0) self.old self.new }
    {
        match f {
            Flow::Faults => self.push(Record::Illegal(p)),
            Flow::Continues => {
                self.push(Record::DoWord(word));
                self.push(Record::GoTo(firsts.of_plain(n)));
            }
            Flow::Traps => self.push(Record::DoWord(word)),
            Flow::Calls(disp) => {
                self.push(Record::Link(p));
                self.push(Record::GoTo(firsts.of(Place::Pair(n.0, target(p, disp).0))));
            }
            Flow::Branches(cond, annul, disp) => self.put_branch(
                firsts,
                cond,
                annul,
                target(p, disp),
                n,
            ),
            Flow::Jumps(_) => {
                self.push(Record::Hold(word, p));
                self.push(Record::GoTo(firsts.of(Place::Held(n.0))));
            }
        }
    }

    // Puts the group of a word held at p.
    #[inline(always)]
    fn put_held(&mut self, f: Flow, word: u32, p: SourcePc)
        requires { HasRoom (held_group_of (transferred f) word p.0) self.old }
        ensures { (first : Place → ℕ) → Puts first (held_group_of (transferred f) word p.0) self.old self.new }
    {
        match f {
            Flow::Faults => self.push(Record::Illegal(p)),
            Flow::Traps => self.push(Record::DoWord(word)),
            _ => {
                self.push(Record::DoWord(word));
                self.push(Record::GoHeld);
            }
        }
    }

    // Puts the group of place i.
    #[inline(always)]
    fn put_group(&mut self, image: Image<'_>, firsts: Firsts<'_>, i: usize)
        requires { (i < firsts.rows.count) × HasRoom (group image.bytes.now image.base (place_in firsts.rows.places.now i)) self.old }
        ensures { Puts (first_of firsts.entry) (group image.entry.bytes.now image.entry.base (place_in firsts.entry.rows.places.now i)) self.old self.new }
    {
        let places = firsts.rows.places;
        let p = address(places, i);
        let Some(word) = image.word(p) else {
            return self.push(Record::Outside(p));
        };
        let flow = flows::read_flow(word);
        if is_held(places, i) {
            self.put_held(flow, word, p);
        } else {
            self.put_word(firsts, flow, word, p, next(places, i));
        }
    }
}

// Puts the groups of all places, in place order.
#[inline(always)]
pub fn put_groups(image: Image<'_>, rows: Rows<'_>, total: usize, bytes: &mut [u8])
    requires { (total ≡ needed (in_full image.bytes.now image.base) (places_in rows.places.now rows.count)) × (12 * total ≤ length bytes.old) }
    ensures { numbers_of bytes.new (3 * total) ≡ records_numbers (records_from (in_full image.entry.bytes.now image.entry.base) (first_in rows.entry.places.now rows.entry.count total) (places_in rows.entry.places.now rows.entry.count)) }
{
    let firsts = Firsts {
        rows,
        past: TargetPc(total as u32),
    };
    let mut records = Records { bytes, count: 0 };
    for i in 0..rows.count {
        records.put_group(image, firsts, i);
    }
}
