// The effect of a word that does not transfer control: one function, which both cores call.
ghost use Rattle.std.specs.Prelude.{◌≡◌};
ghost use Rattle.words.specs.Conditions.{holds_of};
ghost use Rattle.machine.specs.Ends.{answered, done, settle};
ghost use Rattle.effects.specs.Effect.{machine, trap_of, effect_of};

use crate::data_area::{load, store};
use arithmetic::{operate, shift};
use machine::registers::{File, address, put, put_y, reg, value, y};
use machine::{End, Flags};
use windows::window;
use words::{Instruction, Operand};

// Whether a condition holds of the flags.
pub fn holds(f: Flags, cond: u32) -> bool
    ensures { result ≡ holds_of cond f.nzvc }
{
    words::holds(cond, f.nzvc)
}

// The end that a Ticc meets, if its condition holds.
#[tactic(auto, unfolding(crate::specs::Effect::trap_of, machine::specs::Ends::answered, machine::specs::Ends::settle, machine::specs::Ends::ending_of))]
fn trap(f: Flags, regs: &File, cond: u32, rs1: u32, x: Operand) -> Result<(), End>
    ensures { done tt result ≡ settle tt (trap_of f.nzvc regs.now cond rs1 x) }
{
    if holds(f, cond) {
        let t = address(regs, rs1, x);
        return Err(End::TrapTaken(t % 128));
    }
    Ok(())
}

// What a word does that does not transfer control; the others do nothing here. The data base stands beside the area: `effect_of` has it apart
// from the machine, so that in one struct with the area each clause would take both out again.
#[tactic(auto, using(crate::proofs::Effects::idle), unfolding(crate::specs::Effect::effect_of, machine::specs::Ends::answered, machine::specs::Ends::settle, machine::specs::Ends::ending_of))]
pub fn perform(
    i: Instruction,
    db: u32,
    regs: &mut File,
    f: Flags,
    area: &mut [u8],
) -> Result<Flags, End>
    ensures { answered (λ g. machine regs.new g.nzvc area.new) (machine regs.new f.nzvc area.new) result ≡ settle (machine regs.old f.nzvc area.old) (effect_of db i (machine regs.old f.nzvc area.old)) }
{
    match i {
        Instruction::Sethi(rd, k) => {
            put(regs, rd, k << 10);
            Ok(f)
        }
        Instruction::Arithmetic(o, cc, rd, rs1, x) => Ok(operate(f, regs, o, cc, rd, rs1, x)),
        Instruction::Ticc(cond, rs1, x) => {
            trap(f, regs, cond, rs1, x)?;
            Ok(f)
        }
        Instruction::Load(o, rd, rs1, x) => {
            load(o, db, regs, area, rd, rs1, x)?;
            Ok(f)
        }
        Instruction::Store(w, rd, rs1, x) => {
            store(w, db, regs, area, rd, rs1, x)?;
            Ok(f)
        }
        Instruction::Shift(o, rd, rs1, x) => {
            shift(regs, o, rd, rs1, x);
            Ok(f)
        }
        Instruction::Rdy(rd) => {
            put(regs, rd, y(regs));
            Ok(f)
        }
        Instruction::Wry(s) => {
            let x = s.operand;
            put_y(regs, reg(regs, s.rs1) ^ value(regs, x));
            Ok(f)
        }
        Instruction::Window(o, rd, rs1, x) => {
            window(regs, o, rd, rs1, x)?;
            Ok(f)
        }
        _ => Ok(f),
    }
}
