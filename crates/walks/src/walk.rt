// The walk: places are handled in number order, and each adds those of its followers that are not yet present.
ghost use Rattle.std.specs.Prelude.{◌≡◌, ◌<◌, suc, []};
ghost use Rattle.model.specs.Places.{plains};
ghost use Rattle.model.specs.Records.{numbers_in};
ghost use Rattle.model.specs.Walk.{grow, walk, places_of};
ghost use Rattle.places.specs.Table.{place_in};
ghost use Rattle.places.specs.Lent.{listed};
ghost use Rattle.walks.specs.Walk.{handled, Known, Grown};

use crate::worklist::{Refused, add_names, add_plain};
use machine::SourcePc;
use model::Image;
use places::control::may_be_held;
use places::table::Table;

// Handles place i: a held place's word is tested, and it has no followers; another's are added in order.
#[inline(always)]
fn handle(image: Image<'_>, table: &mut Table<'_>, i: usize) -> Result<(), Refused>
    requires { i < table.old.index.now.count }
    ensures { Known (handled image.entry.bytes.now image.entry.base table.old.room (listed table.old) (place_in table.old.places.now i)) table.old result table.new }
{
    let p = table.address(i);
    let Some(word) = image.word(p) else {
        return Ok(());
    };
    let flow = flows::read_flow(word);
    if !table.is_held(i) {
        return add_names(image, table, flow, p, table.next(i));
    }
    if may_be_held(flow) {
        Ok(())
    } else {
        Err(Refused::Forbidden(p.0))
    }
}

// Handles the places in number order, until none is left.
#[inline(always)]
fn walk(image: Image<'_>, table: &mut Table<'_>) -> Result<(), Refused>
    ensures { Known (walk image.entry.bytes.now image.entry.base (suc table.old.room) table.old.room 0 (listed table.old)) table.old result table.new }
{
    let mut i = 0;
    // Not over a range, since the places become more on the way.
    while i < table.len() {
        handle(image, table, i)?;
        i += 1;
    }
    Ok(())
}

// The entries become plain places.
#[inline(always)]
fn start(entries: &[u8], table: &mut Table<'_>) -> Result<(), Refused>
    ensures { Grown table.old (plains (numbers_in entries.now)) result table.new }
{
    for j in 0..entries.len() / 4 {
        add_plain(table, SourcePc(numbers::read_number(entries, 4 * j)))?;
    }
    Ok(())
}

// Finds the places of a program from its entries.
#[inline(always)]
pub fn find_places(image: Image<'_>, entries: &[u8], table: &mut Table<'_>) -> Result<(), Refused>
    requires { table.old.index.now.count ≡ 0 }
    ensures { Known (places_of image.entry.bytes.now image.entry.base table.old.room (numbers_in entries.now)) table.old result table.new }
{
    start(entries, table)?;
    walk(image, table)
}
