// Where each place's group stands among the records.
ghost use Rattle.std.specs.Prelude.{◌≡◌, Bool, ℕ, ◌*◌, ◌≤◌, ◌<◌, length};
ghost use Rattle.numbers.specs.Choice.{pick};
ghost use Rattle.model.specs.declared.Place.TheVariants.{Pair, Held};
ghost use Rattle.model.specs.Places.{which_of};
ghost use Rattle.model.specs.Records.{bicc_group, group_of, held_group_of, group, in_full};
ghost use Rattle.places.specs.Control.{transferred};
ghost use Rattle.places.specs.Table.{places_in, ShowsIn, SameRow};
ghost use Rattle.groups.specs.Layout.{size, Laid};

use machine::SourcePc;
use model::Image;
use places::table::{address, is_held};
use words::Flow;

// How many records a branch has: one where its condition is settled.
#[inline(always)]
#[tactic(auto, unfolding(crate::specs::Layout::size, model::specs::Records::bicc_group, model::specs::Places::which_of))]
fn branch_size(cond: u32) -> usize
    ensures { (annul : Bool) (t n : ℕ) → result ≡ size (bicc_group (which_of cond) cond annul t n) }
{
    match cond {
        0 => 1,
        // apart, since after `0 | 8` the last arm does not know that it is neither
        8 => 1,
        _ => 2,
    }
}

// How many records a word has, at a place or held.
#[inline(always)]
fn word_size(f: Flow, held: bool) -> usize
    ensures { (word p n : ℕ) → result ≡ size (pick held (held_group_of (transferred f) word p) (group_of (transferred f) word p n)) }
{
    match f {
        Flow::Faults => 1,
        // apart, so that the edit `trap_counted_twice` can say it of this one alone
        Flow::Traps => 1,
        Flow::Continues | Flow::Calls(_) | Flow::Jumps(_) => 2,
        Flow::Branches(cond, _, _) => if held { 2 } else { branch_size(cond) },
    }
}

// How many records a place has, whatever its next is.
#[inline(always)]
fn group_size(image: Image<'_>, p: SourcePc, held: bool) -> usize
    ensures { (n : ℕ) → result ≡ size (group image.entry.bytes.now image.entry.base (pick held (Held p.0) (Pair p.0 n))) }
{
    match image.word(p) {
        Some(word) => word_size(flows::read_flow(word), held),
        None => 1,
    }
}

// Sets the first record of each of so many rows, in place order, and answers the records in all. It asks for places, and for no index of them:
// so it takes the bytes and a count, and no table.
#[inline(always)]
pub fn lay_out(image: Image<'_>, places: &mut [u8], count: usize) -> usize
    requires { (16 * count ≤ length places.old) × (count ≤ 8192) × ((i : ℕ) → i < count → ShowsIn places.old i) }
    ensures { Laid (in_full image.entry.bytes.now image.entry.base) (places_in places.old count) count places.new result × ((i : ℕ) → i < count → SameRow places.new places.old i) }
{
    let mut n = 0;
    for i in 0..count {
        let size = group_size(image, address(places, i), is_held(places, i));
        numbers::write_number(places, 16 * i + 12, n as u32);
        n += size;
    }
    n
}
