// The new core for a loader in C: numbers and byte areas, numbers big-endian. Any bytes are a state.
#![tactic(auto)]

ghost use Rattle.std.specs.Prelude.{◌≡◌, List, [], ℕ};
ghost use Rattle.machine.specs.Ends.{ending, standing_of};
ghost use Rattle.windows.specs.Windows.{laid};
ghost use Rattle.model.specs.Run.{zeroed};
ghost use Rattle.states.specs.NewState.{new_state};
ghost use Rattle.model.specs.StateBytes.{new_in, new_bytes, after, new_begins, new_runs};

use machine::registers::{FILE, File};
use machine::{Ended, SourcePc, TargetPc};
use new_core::{Places, Translation};
use states::{NEW_BEHIND, NEW_STATE, NewControl, Standing};

// The state that bytes stand for, its file lent. What both cores' states share is read in `states`; these numbers are this core's.
fn decode(state: &[u8; NEW_STATE], regs: &mut File) -> Standing<NewControl>
    ensures { (a : List ℕ) → new_state (zeroed regs.new) result a ≡ new_in state.now a }
{
    states::file_in(state, NEW_BEHIND, regs);
    Standing {
        control: NewControl {
            flags: states::flags_in(state),
            at: TargetPc(numbers::read_number(state, 132)),
            held: SourcePc(numbers::read_number(state, 136)),
        },
        end: states::end_in(state, 140),
    }
}

// The bytes of a state, the current window among the others, and how it ended.
#[tactic(auto, unfolding(model::specs::StateBytes::new_bytes))]
fn encode(regs: &mut File, s: Standing<NewControl>, state: &mut [u8; NEW_STATE]) -> Ended
    ensures { (ending result.end result.number ≡ standing_of s.end) × (regs.new ≡ laid regs.old) × ((a : List ℕ) → state.new ≡ new_bytes (new_state regs.old s a)) }
{
    let c = s.control;
    let ended = Ended::from(s.end);
    let rest = [c.flags.nzvc, c.at.0, c.held.0, ended.end, ended.number];
    states::put_state(state, regs, &rest);
    ended
}

// Begins at an address: registers, flags, Y, nesting and windows stay.
pub fn pijorrel_new_begin(
    places: &[u8],
    base: u32,
    size: u32,
    a: u32,
    state: &mut [u8; NEW_STATE],
) -> Ended
    ensures { after result.end result.number state.new [] ≡ new_begins places.now base size a state.old }
{
    let mut regs = [0u32; FILE];
    let c = decode(state, &mut regs);
    let places = Places {
        table: places,
        base,
        size,
    };
    let k = new_core::begin(&places, &mut regs, c.control, SourcePc(a));
    encode(&mut regs, k, state)
}

// Does count records, or fewer where the run ends.
pub fn pijorrel_new_run(
    records: &[u8],
    places: &[u8],
    base: u32,
    size: u32,
    db: u32,
    state: &mut [u8; NEW_STATE],
    area: &mut [u8],
    count: u16,
) -> Ended
    ensures { after result.end result.number state.new area.new ≡ new_runs records.now places.now base size db count state.old area.old }
{
    let mut regs = [0u32; FILE];
    let c = decode(state, &mut regs);
    let places = Places {
        table: places,
        base,
        size,
    };
    let translation = Translation { records, places };
    let k = new_core::run(&translation, db, &mut regs, c, area, count);
    encode(&mut regs, k, state)
}
