// What a word says of places: where it leads, and whether it may stand held.
ghost use Rattle.std.specs.Prelude.{◌≡◌};
ghost use Rattle.numbers.specs.Choice.{pick};
ghost use Rattle.numbers.specs.Number.{plus};
ghost use Rattle.model.specs.Places.{unimp_behind, may_be_held};
ghost use Rattle.places.specs.Control.{transferred};

use machine::SourcePc;
use model::Image;
use words::Flow;

// Whether an unimp stands behind the delay slot of a call at p: there the callee returns a record, and past the unimp.
#[inline(always)]
pub fn unimp_behind(image: Image<'_>, p: SourcePc) -> bool
    ensures { result ≡ unimp_behind image.entry.bytes.now image.entry.base p.0 }
{
    image.word(p.further(8)).is_some_and(words::is_unimp)
}

// Where a branch that is not taken goes on: past its delay slot, if that is annulled.
#[inline(always)]
pub fn untaken(annul: bool, n: SourcePc) -> SourcePc
    ensures { result.0 ≡ pick annul (plus n.0 4) n.0 }
{
    if annul { n.further(4) } else { n }
}

// Whether a word may stand held: no call, no jmpl, and of the branches one that is never taken and annuls nothing.
#[inline(always)]
pub fn may_be_held(f: Flow) -> bool
    ensures { result ≡ may_be_held (transferred f) }
{
    match f {
        Flow::Faults | Flow::Continues | Flow::Traps => true,
        Flow::Calls(_) | Flow::Jumps(_) => false,
        Flow::Branches(cond, annul, _) => !annul && cond == 0,
    }
}
