// The new core: records and one program counter, a record at a time.
#![tactic(auto)]

ghost use Rattle.std.specs.Prelude.{◌≡◌, ℕ, ◌+◌, ◌*◌, ◌≤◌, List, length};
ghost use Rattle.std.proofs.Math.Option.{some};
ghost use Rattle.numbers.specs.Choice.{pick};
ghost use Rattle.numbers.specs.Number.{plus};
ghost use Rattle.machine.specs.Ends.{answered, ending, ending_of, go, halt, settle, within};
ghost use Rattle.machine.specs.Registers.{put_register};
ghost use Rattle.effects.specs.Effect.{machine, effect_of};
ghost use Rattle.model.specs.Run.{run, zeroed, data_of, beyond, lent};
ghost use Rattle.model.specs.OldCore.{transfer_of, in_image};
ghost use Rattle.model.specs.Places.{which_of, idle_bicc};
ghost use Rattle.model.specs.Records.{rows_in, record_at};
ghost use Rattle.model.specs.NewCore.{New, following, fit, holds, chooses, seek, lost, goes, stops, does, new_next, new_begun};
ghost use Rattle.states.specs.NewState.{new_of, new_state};
ghost use Rattle.new_core.specs.Sought.{sought_of};

use effects::effect::perform;
use machine::registers::{File, address, put};
use machine::{End, SourcePc, TargetPc};
use states::program::Program;
use states::{NewControl, Standing};
use words::Instruction;

// The place table of a translation, and of the image that was translated the address of its first byte and its length.
#[derive(Clone, Copy)]
pub struct Places<'a> {
    pub table: &'a [u8],
    pub base: u32,
    pub size: u32,
}

impl Places<'_> {
    // The first record of the lowest-numbered plain place of an address. Searches the table to its end.
    fn search(&self, a: SourcePc) -> Option<TargetPc>
        ensures { sought_of result ≡ seek (rows_in self.now.table.now) a.0 }
    {
        for row in self.table.chunks_exact(16) {
            if numbers::read_number(row, 0) == a.0 && numbers::read_number(row, 8) == 0 {
                return Some(TargetPc(numbers::read_number(row, 12)));
            }
        }
        None
    }

    // Whether an address lies in the image.
    #[tactic(auto, unfolding(model::specs::OldCore::in_image))]
    fn in_image(&self, a: SourcePc) -> bool
        ensures { result ≡ in_image self.now.base self.now.size a.0 }
    {
        numbers::subtract(a.0, self.base) as u64 + 4 <= self.size as u64
    }

    // How a run ends at an address that has no plain place.
    #[tactic(auto, unfolding(model::specs::NewCore::lost, machine::specs::Ends::ending_of))]
    fn lost(&self, a: SourcePc) -> End
        ensures { ending_of result ≡ lost (in_image self.now.base self.now.size a.0) a.0 }
    {
        if self.in_image(a) {
            return End::NoPlace(a);
        }
        End::Outside(a)
    }

    // Kind 6: go by the held address.
    fn go_held(&self, c: NewControl) -> Result<NewControl, End>
        ensures { (rs a : List ℕ) → answered (λ k. new_of rs k a) (new_of rs c a) result ≡ settle (new_of rs c a) (goes (seek (rows_in self.now.table.now) c.held.0) (in_image self.now.base self.now.size c.held.0) (machine rs c.flags.nzvc a) c.held.0) }
    {
        match self.search(c.held) {
            Some(to) => Ok(c.go_to(to)),
            None => Err(self.lost(c.held)),
        }
    }
}

// A word that does not transfer control, then the next record, or the end. Its effect is done in here and not handed over: so the compiler
// sees where each word goes on, and tests no end of a word that has none.
fn do_effect(
    i: Instruction,
    db: u32,
    regs: &mut File,
    c: NewControl,
    area: &mut [u8],
) -> Result<NewControl, End>
    ensures { answered (λ k. new_of regs.new k area.new) (new_of regs.new c area.new) result ≡ settle (new_of regs.old c area.old) (within (following c.at.0 c.held.0) (effect_of db i (machine regs.old c.flags.nzvc area.old))) }
{
    let flags = perform(i, db, regs, c.flags, area)?;
    Ok(NewControl { flags, ..c }.follow())
}

// Of the branches a record may do one that is never taken and annuls nothing.
fn do_branch(c: NewControl, cond: u32, annul: bool) -> Result<NewControl, End>
    ensures { (rs a : List ℕ) → answered (λ k. new_of rs k a) (new_of rs c a) result ≡ settle (new_of rs c a) (pick (idle_bicc (which_of cond) annul) (go (following c.at.0 c.held.0 (machine rs c.flags.nzvc a))) (halt (ending 7 c.at.0))) }
{
    if cond == 0 && !annul {
        return Ok(c.follow());
    }
    Err(c.bad())
}

// Kind 1: do the word.
fn do_word(
    i: Instruction,
    db: u32,
    regs: &mut File,
    c: NewControl,
    area: &mut [u8],
) -> Result<NewControl, End>
    ensures { answered (λ k. new_of regs.new k area.new) (new_of regs.new c area.new) result ≡ settle (new_of regs.old c area.old) (pick (fit (transfer_of i)) (within (following c.at.0 c.held.0) (effect_of db i (machine regs.old c.flags.nzvc area.old))) (halt (ending 7 c.at.0))) }
{
    match i {
        Instruction::Illegal | Instruction::Call(_) | Instruction::Jmpl(..) => Err(c.bad()),
        Instruction::Bicc(cond, annul, _) => do_branch(c, cond, annul),
        _ => do_effect(i, db, regs, c, area),
    }
}

// Kind 2: register 15 := first.
fn link(first: SourcePc, regs: &mut File, c: NewControl) -> NewControl
    ensures { (a : List ℕ) → new_of regs.new result a ≡ following c.at.0 c.held.0 (machine (put_register regs.old 15 first.0) c.flags.nzvc a) }
{
    put(regs, 15, first.0);
    c.follow()
}

// Kind 3: hold where the jmpl leads. The address is taken from the registers before rd is written.
fn hold(i: Instruction, source: SourcePc, regs: &mut File, c: NewControl) -> Result<NewControl, End>
    ensures { (a : List ℕ) → answered (λ k. new_of regs.new k a) (new_of regs.new c a) result ≡ settle (new_of regs.old c a) (holds (transfer_of i) source.0 (machine regs.old c.flags.nzvc a) c.at.0) }
{
    let Instruction::Jmpl(rd, rs1, x) = i else {
        return Err(c.bad());
    };
    let t = address(regs, rs1, x);
    if t % 4 == 0 {
        put(regs, rd, source.0);
        return Ok(NewControl {
            held: SourcePc(t),
            ..c
        }
        .follow());
    }
    Err(End::Misaligned(t))
}

// Kind 4: go to a record if a condition holds.
fn choose(cond: u32, to: TargetPc, c: NewControl) -> Result<NewControl, End>
    ensures { (rs a : List ℕ) → answered (λ k. new_of rs k a) (new_of rs c a) result ≡ settle (new_of rs c a) (chooses cond to.0 (machine rs c.flags.nzvc a) c.at.0 c.held.0) }
{
    if cond > 15 {
        return Err(c.bad());
    }
    if effects::effect::holds(c.flags, cond) {
        return Ok(c.go_to(to));
    }
    Ok(c.follow())
}

// Kind 7: end as first says, at address second. (first is a record's number, any one: the match is its conversion.)
#[tactic(auto, unfolding(model::specs::NewCore::stops, machine::specs::Ends::ending_of))]
fn stop_as(first: u32, second: SourcePc, c: NewControl) -> End
    ensures { halt (ending_of result) ≡ stops first second.0 c.at.0 }
{
    match first {
        2 => End::Outside(second),
        3 => End::IllegalWord(second),
        _ => c.bad(),
    }
}

// A translation: its records, and its places.
#[derive(Clone, Copy)]
pub struct Translation<'a> {
    pub records: &'a [u8],
    pub places: Places<'a>,
}

impl Translation<'_> {
    // Does the record that starts at a position. Of its numbers only those are read that its kind names, and as the kind says they become
    // addresses or record numbers here. The kinds stay numbers: an enum of them would be made and matched in this one place.
    fn obey(
        &self,
        at: usize,
        db: u32,
        regs: &mut File,
        c: NewControl,
        area: &mut [u8],
    ) -> Result<NewControl, End>
        requires { (at ≡ 12 * c.at.0) × (at + 12 ≤ length self.now.records.now) }
        ensures { answered (λ k. new_of regs.new k area.new) (new_of regs.new c area.new) result ≡ settle (new_of regs.old c area.old) (does (rows_in self.now.places.table.now) self.now.places.base self.now.places.size db (some (record_at self.now.records.now c.at.0)) (machine regs.old c.flags.nzvc area.old) c.at.0 c.held.0) }
    {
        let records = self.records;
        let kind = numbers::read_number(records, at);
        let first = numbers::read_number(records, at + 4);
        match kind {
            1 => do_word(words::read_instruction(first), db, regs, c, area),
            2 => Ok(link(SourcePc(first), regs, c)),
            3 => hold(
                words::read_jmpl(first),
                SourcePc(numbers::read_number(records, at + 8)),
                regs,
                c,
            ),
            4 => choose(first, TargetPc(numbers::read_number(records, at + 8)), c),
            5 => Ok(c.go_to(TargetPc(first))),
            6 => self.places.go_held(c),
            7 => Err(stop_as(first, SourcePc(numbers::read_number(records, at + 8)), c)),
            _ => Err(c.bad()),
        }
    }
}

impl Program for Translation<'_> {
    type Control = NewControl;

    ghost Whole = { New };

    ghost whole = { new_of };

    ghost next = { λ t. new_next t.records.now t.places.table.now t.places.base t.places.size };

    // Does the record at hand; one past the last is bad. The number of records stays, so that it is worked out once for a run.
    fn step(
        &self,
        db: u32,
        regs: &mut File,
        c: NewControl,
        area: &mut [u8],
    ) -> Result<NewControl, End> {
        let n = c.at.0 as usize;
        if n < self.records.len() / 12 {
            return self.obey(12 * n, db, regs, c, area);
        }
        Err(c.bad())
    }
}

// At the first record of the address's lowest-numbered plain place, or ended where there is none; flags and the lent file stay.
pub fn begin(places: &Places, regs: &mut File, c: NewControl, a: SourcePc) -> Standing<NewControl>
    ensures { (area : List ℕ) → new_state regs.new result area ≡ new_begun places.now.table.now places.now.base places.now.size a.0 (machine (zeroed regs.old) c.flags.nzvc area) }
{
    regs[0] = 0;
    let (at, end) = match places.search(a) {
        Some(to) => (to, None),
        None => (TargetPc(0), Some(places.lost(a))),
    };
    Standing {
        control: NewControl {
            at,
            held: SourcePc(0),
            ..c
        },
        end,
    }
}

// count records, or fewer where the run ends. The file is lent, so that nothing copies it. It is the generic run, under the name that the pages
// give the core's.
pub fn run(
    translation: &Translation,
    db: u32,
    regs: &mut File,
    s: Standing<NewControl>,
    area: &mut [u8],
    count: u16,
) -> Standing<NewControl>
    ensures { lent (new_state regs.new result (data_of area.new)) (beyond area.new) ≡ lent (run (new_next translation.now.records.now translation.now.places.table.now translation.now.places.base translation.now.places.size db) count (new_state (zeroed regs.old) s (data_of area.old))) (beyond area.old) }
{
    states::program::run(translation, db, regs, s, area, count)
}
