// The old core: SPARC V8 words under PC, nPC and annul, a step at a time.
#![tactic(auto)]

ghost use Rattle.std.specs.Prelude.{◌≡◌, ℕ, ◌%◌, List, eqb};
ghost use Rattle.numbers.specs.Choice.{pick};
ghost use Rattle.words.specs.Conditions.{holds_of};
ghost use Rattle.machine.specs.Ends.{answered, ending, halt, settle};
ghost use Rattle.machine.specs.Registers.{address_of};
ghost use Rattle.effects.specs.Effect.{machine};
ghost use Rattle.model.specs.Run.{run, zeroed, data_of, beyond, lent};
ghost use Rattle.model.specs.OldCore.{Old, word_in, transfer_of, target, follows, branches, jumps, executes, fetches, old_next, old_begun};
ghost use Rattle.model.specs.StateBytes.{is_set};
ghost use Rattle.states.specs.OldState.{old_of, old_state};

use effects::effect::{holds, perform};
use machine::registers::{File, address, put};
use machine::{End, SourcePc};
use model::{Image, target};
use states::program::Program;
use states::{OldControl, Standing};
use words::{Instruction, Operand};

fn branch(c: OldControl, cond: u32, annul: bool, disp: u32) -> OldControl
    ensures { (rs a : List ℕ) → old_of rs result a ≡ branches (holds_of cond c.flags.nzvc) (eqb cond 8) annul (machine rs c.flags.nzvc a) c.npc.0 (target c.pc.0 disp) }
{
    if holds(c.flags, cond) {
        return c.advance(target(c.pc, disp), u32::from(annul && cond == 8));
    }
    c.advance(c.npc.further(4), u32::from(annul))
}

// The address is taken from the registers before rd is written.
fn jump(c: OldControl, regs: &mut File, rd: u32, rs1: u32, x: Operand) -> Result<OldControl, End>
    ensures { (a : List ℕ) → answered (λ k. old_of regs.new k a) (old_of regs.new c a) result ≡ settle (old_of regs.old c a) (jumps (address_of regs.old rs1 x) rd (machine regs.old c.flags.nzvc a) c.pc.0 c.npc.0) }
{
    let t = address(regs, rs1, x);
    if t % 4 == 0 {
        put(regs, rd, c.pc.0);
        return Ok(c.advance(SourcePc(t), 0));
    }
    Err(End::Misaligned(t))
}

fn execute(
    i: Instruction,
    db: u32,
    regs: &mut File,
    c: OldControl,
    area: &mut [u8],
) -> Result<OldControl, End>
    ensures { answered (λ k. old_of regs.new k area.new) (old_of regs.new c area.new) result ≡ settle (old_of regs.old c area.old) (executes db (transfer_of i) i (machine regs.old c.flags.nzvc area.old) c.pc.0 c.npc.0) }
{
    match i {
        Instruction::Illegal => Err(End::IllegalWord(c.pc)),
        Instruction::Call(disp) => {
            put(regs, 15, c.pc.0);
            Ok(c.advance(target(c.pc, disp), 0))
        }
        Instruction::Bicc(cond, annul, disp) => Ok(branch(c, cond, annul, disp)),
        Instruction::Jmpl(rd, rs1, x) => jump(c, regs, rd, rs1, x),
        _ => {
            let flags = perform(i, db, regs, c.flags, area)?;
            Ok(OldControl { flags, ..c }.follow())
        }
    }
}

// PC a multiple of 4, PC in the image, known word, its effect.
fn fetch(
    image: Image<'_>,
    db: u32,
    regs: &mut File,
    c: OldControl,
    area: &mut [u8],
) -> Result<OldControl, End>
    ensures { answered (λ k. old_of regs.new k area.new) (old_of regs.new c area.new) result ≡ settle (old_of regs.old c area.old) (pick (eqb (c.pc.0 % 4) 0) (fetches db (word_in image.entry.bytes.now image.entry.base c.pc.0) (machine regs.old c.flags.nzvc area.old) c.pc.0 c.npc.0) (halt (ending 4 c.pc.0))) }
{
    if c.pc.0 % 4 != 0 {
        return Err(End::Misaligned(c.pc.0));
    }
    match image.word(c.pc) {
        Some(word) => execute(words::read_instruction(word), db, regs, c, area),
        None => Err(End::Outside(c.pc)),
    }
}

// What the old core runs.
#[derive(Clone, Copy)]
pub struct Source<'a> {
    pub image: Image<'a>,
}

impl Program for Source<'_> {
    type Control = OldControl;

    ghost Whole = { Old };

    ghost whole = { old_of };

    ghost next = { λ s. old_next s.image.bytes.now s.image.base };

    // An annulled word is passed unread.
    fn step(
        &self,
        db: u32,
        regs: &mut File,
        c: OldControl,
        area: &mut [u8],
    ) -> Result<OldControl, End> {
        if c.annul != 0 {
            return Ok(c.follow());
        }
        fetch(self.image, db, regs, c, area)
    }
}

// PC at the address, nPC 4 further, annul clear, not ended; flags and the lent file stay.
pub fn begin(regs: &mut File, c: OldControl, pc: SourcePc) -> Standing<OldControl>
    ensures { (a : List ℕ) → old_state regs.new result a ≡ old_begun pc.0 (machine (zeroed regs.old) c.flags.nzvc a) }
{
    regs[0] = 0;
    Standing {
        control: OldControl {
            pc,
            npc: pc.further(4),
            annul: 0,
            ..c
        },
        end: None,
    }
}

// count steps, or fewer where the run ends. The file is lent, so that nothing copies it. It is the generic run, under the name that the pages
// give the core's.
pub fn run(
    image: Image<'_>,
    db: u32,
    regs: &mut File,
    s: Standing<OldControl>,
    area: &mut [u8],
    count: u16,
) -> Standing<OldControl>
    ensures { lent (old_state regs.new result (data_of area.new)) (beyond area.new) ≡ lent (run (old_next image.entry.bytes.now image.entry.base db) count (old_state (zeroed regs.old) s (data_of area.old))) (beyond area.old) }
{
    states::program::run(&Source { image }, db, regs, s, area, count)
}
