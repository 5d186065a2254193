// The translator for a loader in C: numbers and byte areas, numbers big-endian. Any bytes and any lengths get an answer.
#![tactic(auto)]

ghost use Rattle.std.specs.Prelude.{◌≡◌, [], ◌∷◌, length};
ghost use Rattle.model.specs.Translation.{answer_numbers, back, returned, translation};

use model::Answer;

// 01's number for an answer, and the values returned with it, as C has them.
#[repr(C)]
#[derive(Clone, Copy)]
pub struct PijorrelAnswer {
    pub number: u32,
    pub first: u64,
    pub second: u64,
}

impl From<Answer> for PijorrelAnswer {
    ghost from_gives = { λ a r. r.number ∷ r.first ∷ r.second ∷ [] ≡ answer_numbers a };

    #[tactic(auto, unfolding(model::specs::Translation::answer_numbers))]
    fn from(answer: Answer) -> Self {
        match answer {
            Ok(counts) => PijorrelAnswer {
                number: 0,
                first: u64::from(counts.places),
                second: u64::from(counts.records),
            },
            Err(refusal) => {
                let (number, value) = refusal.numbers();
                PijorrelAnswer {
                    number,
                    first: value,
                    second: 0,
                }
            }
        }
    }
}

// Translates an image from its entries into a place table and records.
pub fn pijorrel_translate(
    image: &[u8],
    base: u32,
    entries: &[u8],
    places: &mut [u8],
    records: &mut [u8],
) -> PijorrelAnswer
    ensures { back (result.number ∷ result.first ∷ result.second ∷ []) places.new records.new ≡ returned (translation image.now base entries.now (length places.old) (length records.old)) }
{
    translator::translate(image, base, entries, places, records).into()
}
