// The worklist: a place that is named takes the next number, unless it is present.
ghost use Rattle.std.specs.Prelude.{◌≡◌, [], ◌∷◌};
ghost use Rattle.model.specs.declared.Place.TheVariants.{Pair};
ghost use Rattle.model.specs.Places.{plain, which_of, bicc_names, return_names, unimp_behind, names};
ghost use Rattle.places.specs.Control.{transferred};
ghost use Rattle.walks.specs.Walk.{Grown};

use machine::SourcePc;
use model::{Image, Place, Refusal, target};
use places::control::{unimp_behind, untaken};
use places::table::{Table, address_of};
use words::Flow;

// Why no more places are found: a held place with a forbidden word, a place for which there is no room.
#[derive(Clone, Copy, Debug, PartialEq, Eq)]
pub enum Refused {
    Forbidden(u32),
    NoRoom(u32),
}

impl From<Refused> for Refusal {
    ghost use Rattle.walks.specs.Walk.{refusal_of};

    ghost from_gives = { λ e r. r ≡ refusal_of e };

    #[tactic(auto, unfolding(crate::specs::Walk::refusal_of))]
    fn from(e: Refused) -> Refusal {
        match e {
            Refused::Forbidden(a) => Refusal::Forbidden(a),
            Refused::NoRoom(a) => Refusal::NoRoom(a),
        }
    }
}

// Gives a place the next number, unless it is present.
#[inline(always)]
fn add(table: &mut Table<'_>, x: Place) -> Result<(), Refused>
    ensures { Grown table.old (x ∷ []) result table.new }
{
    if table.find(x).is_some() {
        return Ok(());
    }
    if table.len() >= table.room {
        return Err(Refused::NoRoom(address_of(x)));
    }
    table.push(x);
    Ok(())
}

#[inline(always)]
pub fn add_plain(table: &mut Table<'_>, p: SourcePc) -> Result<(), Refused>
    ensures { Grown table.old (plain p.0 ∷ []) result table.new }
{
    add(table, Place::Pair(p.0, p.further(4).0))
}

// Adds what a Bicc names, where it is not taken before where it is.
#[inline(always)]
fn add_branch(
    table: &mut Table<'_>,
    cond: u32,
    annul: bool,
    t: SourcePc,
    n: SourcePc,
) -> Result<(), Refused>
    ensures { Grown table.old (bicc_names (which_of cond) annul t.0 n.0) result table.new }
{
    match cond {
        0 => add_plain(table, untaken(annul, n)),
        8 if annul => add_plain(table, t),
        8 => add(table, Place::Pair(n.0, t.0)),
        _ => {
            add_plain(table, untaken(annul, n))?;
            add(table, Place::Pair(n.0, t.0))
        }
    }
}

// Adds where a call at p comes back to: plain p + 8, and plain p + 12 where an unimp stands at p + 8.
#[inline(always)]
fn add_returns(image: Image<'_>, table: &mut Table<'_>, p: SourcePc) -> Result<(), Refused>
    ensures { Grown table.old (return_names (unimp_behind image.entry.bytes.now image.entry.base p.0) p.0) result table.new }
{
    add_plain(table, p.further(8))?;
    if unimp_behind(image, p) {
        add_plain(table, p.further(12))?;
    }
    Ok(())
}

// Adds what a word at (p, n) names, in its order.
#[inline(always)]
pub fn add_names(
    image: Image<'_>,
    table: &mut Table<'_>,
    f: Flow,
    p: SourcePc,
    n: SourcePc,
) -> Result<(), Refused>
    ensures { Grown table.old (names (transferred f) (unimp_behind image.entry.bytes.now image.entry.base p.0) p.0 n.0) result table.new }
{
    match f {
        Flow::Faults | Flow::Traps => Ok(()),
        Flow::Continues => add_plain(table, n),
        Flow::Calls(disp) => {
            add(table, Place::Pair(n.0, target(p, disp).0))?;
            add_returns(image, table, p)
        }
        Flow::Branches(cond, annul, disp) => add_branch(table, cond, annul, target(p, disp), n),
        Flow::Jumps(rd) => {
            add(table, Place::Held(n.0))?;
            if rd != 0 {
                add_returns(image, table, p)?;
            }
            Ok(())
        }
    }
}
