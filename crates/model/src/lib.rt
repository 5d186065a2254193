// Places and answers. specs/ has document 01 as definitions, in 01's order.
#![tactic(auto)]

ghost use Rattle.std.specs.Prelude.{◌≡◌, [], ◌∷◌};
ghost use Rattle.model.specs.OldCore.{word_of, word_in, target};
ghost use Rattle.model.specs.Translation.{refusal_numbers};

use machine::SourcePc;

// Where a displacement, which counts words, leads from an address.
#[tactic(auto, unfolding(numbers::specs::Number::plus, crate::specs::OldCore::target))]
pub fn target(p: SourcePc, disp: u32) -> SourcePc
    ensures { result.0 ≡ target p.0 disp }
{
    p.further(disp << 2)
}

// A source program: its bytes, and the address of the first.
#[derive(Clone, Copy)]
pub struct Image<'a> {
    pub bytes: &'a [u8],
    pub base: u32,
}

impl Image<'_> {
    // The word at an address that lies in the image.
    #[inline(always)]
    #[tactic(auto, unfolding(crate::specs::OldCore::word_of, crate::specs::OldCore::word_in, crate::specs::OldCore::in_image))]
    pub fn word(self, p: SourcePc) -> Option<u32>
        ensures { word_of result ≡ word_in self.entry.bytes.now self.entry.base p.0 }
    {
        let at = numbers::subtract(p.0, self.base) as usize;
        if at + 4 <= self.bytes.len() {
            return Some(numbers::read_number(self.bytes, at));
        }
        None
    }
}

// What the old core is about to do, at an address: with a known next address, which is 4 further for a plain place and any other for a
// slot; or held, with a next address that is known only when it is run.
#[derive(Clone, Copy)]
pub enum Place {
    Pair(u32, u32),
    Held(u32),
}

// What an accepted image has.
#[derive(Clone, Copy)]
pub struct Counts {
    pub places: u32,
    pub records: u32,
}

impl Counts {
    // What a refusal has.
    pub const NONE: Counts = Counts {
        places: 0,
        records: 0,
    };
}

// A refusal with its value.
#[derive(Clone, Copy)]
pub enum Refusal {
    ImageLength(u64),
    Base(u32),
    // the position of the first bad entry, counted from 1, or 0 where the count is bad
    Entry(u32),
    Forbidden(u32),
    NoRoom(u32),
    // the records needed
    RecordsShort(u32),
}

impl Refusal {
    // Its number and its value.
    #[tactic(auto, unfolding(crate::specs::Translation::refusal_numbers))]
    pub fn numbers(self) -> (u32, u64)
        ensures { result.0 ∷ result.1 ∷ [] ≡ refusal_numbers self }
    {
        match self {
            Refusal::ImageLength(n) => (1, n),
            Refusal::Base(b) => (2, u64::from(b)),
            Refusal::Entry(k) => (3, u64::from(k)),
            Refusal::Forbidden(p) => (4, u64::from(p)),
            Refusal::NoRoom(p) => (5, u64::from(p)),
            Refusal::RecordsShort(n) => (6, u64::from(n)),
        }
    }
}

// What a translation answers.
pub type Answer = Result<Counts, Refusal>;
