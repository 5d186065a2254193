// The translator: from an image and its entries, the place table and the records, or a refusal.
#![tactic(auto)]

ghost use Rattle.std.specs.Prelude.{◌≡◌, length};
ghost use Rattle.model.specs.Records.{numbers_in};
ghost use Rattle.model.specs.Translation.{bad_length, bad_count, bad_entry, place_room, from_walk, translation};
ghost use Rattle.model.specs.Walk as walk;
ghost use Rattle.places.specs.Lent.{listed, Kept};
ghost use Rattle.translator.specs.Handing.{image_checked, entries_checked, handed, cleared};

use model::{Answer, Counts, Image, Refusal};
use places::index::Index;
use places::table::Table;
use walks::walk::find_places;

// Refusal 1.
#[tactic(auto, unfolding(model::specs::Translation::bad_length))]
fn bad_length(n: usize) -> bool
    ensures { result ≡ bad_length n }
{
    n == 0 || 16384 < n || n % 4 != 0
}

// Refusal 3 for the count.
#[tactic(auto, unfolding(model::specs::Translation::bad_count))]
fn bad_count(k: usize) -> bool
    ensures { result ≡ bad_count k }
{
    k == 0 || 64 < k
}

#[tactic(auto, unfolding(model::specs::Translation::bad_entry, model::specs::OldCore::in_image))]
fn bad_entry(base: u32, size: usize, e: u32) -> bool
    ensures { result ≡ bad_entry base size e }
{
    let at = numbers::subtract(e, base) as usize;
    e % 4 != 0 || size < at + 4
}

// Refusals 1 and 2.
#[inline(always)]
#[tactic(auto, unfolding(crate::specs::Handing::image_checked))]
fn check_image(image: Image<'_>) -> Result<(), Refusal>
    ensures { result ≡ image_checked (length image.entry.bytes.now) image.entry.base }
{
    let size = image.bytes.len();
    if bad_length(size) {
        return Err(Refusal::ImageLength(size as u64));
    }
    if image.base % 4 != 0 {
        return Err(Refusal::Base(image.base));
    }
    Ok(())
}

// Refusal 3: of a count, or of the first bad entry, by its position.
#[inline(always)]
fn check_entries(image: Image<'_>, entries: &[u8]) -> Result<(), Refusal>
    ensures { result ≡ entries_checked (length image.entry.bytes.now) image.entry.base (numbers_in entries.now) }
{
    let count = entries.len() / 4;
    if bad_count(count) {
        return Err(Refusal::Entry(0));
    }
    for j in 0..count {
        let e = numbers::read_number(entries, 4 * j);
        if bad_entry(image.base, image.bytes.len(), e) {
            return Err(Refusal::Entry((j + 1) as u32));
        }
    }
    Ok(())
}

// How many places a table of so many bytes has room for.
#[tactic(auto, unfolding(model::specs::Translation::place_room))]
fn place_room(bytes: usize) -> usize
    ensures { result ≡ place_room bytes }
{
    (bytes / 16).min(8192)
}

// First records and records of the places that were found; refusal 6 where the buffer is short.
#[inline(always)]
fn finish(image: Image<'_>, table: &mut Table<'_>, records: &mut [u8]) -> Answer
    ensures handed { cleared result table.new.places.now records.new ≡ from_walk image.entry.bytes.now image.entry.base (length table.old.places.now) (length records.old) (walk.table (listed table.old)) }
    ensures kept { Kept table.old table.new }
{
    let count = table.len();
    let total = groups::layout::lay_out(image, table.places, count);
    if records.len() / 12 < total {
        return Err(Refusal::RecordsShort(total as u32));
    }
    groups::records::put_groups(image, table.rows(), total, records);
    Ok(Counts {
        places: count as u32,
        records: total as u32,
    })
}

// The translation before its buffers are cleared: nothing is said of the bytes past what it counts.
#[inline(always)]
fn attempt(image: Image<'_>, entries: &[u8], places: &mut [u8], records: &mut [u8]) -> Answer
    ensures { cleared result places.new records.new ≡ translation image.entry.bytes.now image.entry.base entries.now (length places.old) (length records.old) }
{
    check_image(image)?;
    check_entries(image, entries)?;
    let room = place_room(places.len());
    let mut index = Index::new();
    let mut table = Table {
        places,
        index: &mut index,
        room,
    };
    find_places(image, entries, &mut table)?;
    finish(image, &mut table, records)
}

// The translation: the answer, and both buffers filled with 0 past what it counts.
pub fn translate(
    image: &[u8],
    base: u32,
    entries: &[u8],
    places: &mut [u8],
    records: &mut [u8],
) -> Answer
    ensures { handed result places.new records.new ≡ translation image.now base entries.now (length places.old) (length records.old) }
{
    let image = Image { bytes: image, base };
    let answer = attempt(image, entries, places, records);
    let counted = answer.unwrap_or(Counts::NONE);
    numbers::clear_from(places, 16 * counted.places as usize);
    numbers::clear_from(records, 12 * counted.records as usize);
    answer
}
