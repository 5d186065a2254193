// The old core for a loader in C: numbers and byte areas, numbers big-endian. Any bytes are a state.
#![tactic(auto)]

ghost use Rattle.std.specs.Prelude.{◌≡◌, List, ℕ};
ghost use Rattle.machine.specs.Ends.{ending, standing_of};
ghost use Rattle.windows.specs.Windows.{laid};
ghost use Rattle.model.specs.Run.{zeroed};
ghost use Rattle.states.specs.OldState.{old_state};
ghost use Rattle.model.specs.StateBytes.{old_in, old_bytes, after, old_begins, old_runs};

use machine::registers::{FILE, File};
use machine::{Ended, SourcePc};
use model::Image;
use states::{OLD_BEHIND, OLD_STATE, OldControl, Standing};

// The state that bytes stand for, its file lent. What both cores' states share is read in `states`; these numbers are this core's.
fn decode(state: &[u8; OLD_STATE], regs: &mut File) -> Standing<OldControl>
    ensures { (a : List ℕ) → old_state (zeroed regs.new) result a ≡ old_in state.now a }
{
    states::file_in(state, OLD_BEHIND, regs);
    Standing {
        control: OldControl {
            flags: states::flags_in(state),
            pc: SourcePc(numbers::read_number(state, 132)),
            npc: SourcePc(numbers::read_number(state, 136)),
            annul: numbers::read_number(state, 140),
        },
        end: states::end_in(state, 144),
    }
}

// The bytes of a state, the current window among the others, and how it ended.
#[tactic(auto, using(words::proofs::Conditions::one_bit), unfolding(model::specs::StateBytes::old_bytes, model::specs::StateBytes::is_set))]
fn encode(regs: &mut File, s: Standing<OldControl>, state: &mut [u8; OLD_STATE]) -> Ended
    ensures { (ending result.end result.number ≡ standing_of s.end) × (regs.new ≡ laid regs.old) × ((a : List ℕ) → state.new ≡ old_bytes (old_state regs.old s a)) }
{
    let c = s.control;
    let ended = Ended::from(s.end);
    let rest = [
        c.flags.nzvc,
        c.pc.0,
        c.npc.0,
        u32::from(c.annul != 0),
        ended.end,
        ended.number,
    ];
    states::put_state(state, regs, &rest);
    ended
}

// Begins at an address: registers, flags, Y, nesting and windows stay.
#[tactic(auto, unfolding(model::specs::StateBytes::old_begins, model::specs::StateBytes::old_in))]
pub fn pijorrel_old_begin(pc: u32, state: &mut [u8; OLD_STATE])
    ensures { state.new ≡ old_begins pc state.old }
{
    let mut regs = [0u32; FILE];
    let c = decode(state, &mut regs);
    let k = old_core::begin(&mut regs, c.control, SourcePc(pc));
    let _r = encode(&mut regs, k, state);
}

// Passes count words, or fewer where the run ends.
pub fn pijorrel_old_run(
    image: &[u8],
    base: u32,
    db: u32,
    state: &mut [u8; OLD_STATE],
    area: &mut [u8],
    count: u16,
) -> Ended
    ensures { after result.end result.number state.new area.new ≡ old_runs image.now base db count state.old area.old }
{
    let mut regs = [0u32; FILE];
    let c = decode(state, &mut regs);
    let k = old_core::run(Image { bytes: image, base }, db, &mut regs, c, area, count);
    encode(&mut regs, k, state)
}
