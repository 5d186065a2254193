// What C calls of the translator, under the name of include/pijorrel.h. The export is pijorrel_translate's function.
#![tactic(auto)]

ghost use Rattle.std.specs.Prelude.{◌≡◌, [], ◌∷◌, length};
ghost use Rattle.model.specs.Translation.{back, returned, translation};

use pijorrel_translate::PijorrelAnswer;

// Translates an image from its entries into a place table and records.
#[unsafe(no_mangle)]
pub extern "C" fn pijorrel_translate(
    image: &[u8],
    base: u32,
    entries: &[u8],
    places: &mut [u8],
    records: &mut [u8],
) -> PijorrelAnswer
    ensures { back (result.number ∷ result.first ∷ result.second ∷ []) places.new records.new ≡ returned (translation image.now base entries.now (length places.old) (length records.old)) }
{
    pijorrel_translate::pijorrel_translate(image, base, entries, places, records)
}
