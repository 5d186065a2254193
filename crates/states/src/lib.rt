// The states of the cores: their start values, and their register file in a state's bytes.
#![tactic(auto)]

ghost use Rattle.std.specs.Prelude.{◌≡◌, ℕ, List, ◌+◌, ◌*◌, ◌%◌, ◌-◌, ◌≤◌, ◌++◌, length, take, drop};
ghost use Rattle.numbers.specs.Number.{number_at, bytes_of};
ghost use Rattle.machine.specs.Ends.{ending, ending_from, ending_of, standing_of};
ghost use Rattle.machine.specs.Registers.{file_size};
ghost use Rattle.effects.specs.Effect.{machine};
ghost use Rattle.model.specs.OldCore.{old, follows};
ghost use Rattle.model.specs.NewCore.{new, following};
ghost use Rattle.windows.specs.Windows.{laid, come_in};
ghost use Rattle.model.specs.StateBytes.{is_set, file_in};
ghost use Rattle.states.specs.OldState.{start_values, old_of};
ghost use Rattle.states.specs.NewState.{new_start_values, new_of};

pub mod program;

use machine::registers::{FILE, File};
use machine::{End, Ended, Flags, SourcePc, TargetPc};

// A core's state but for its registers, with the end of its run where that has ended. A step is handed the control alone: so none is done on a state
// that has ended, and no step carries an end.
#[derive(Clone, Copy)]
pub struct Standing<C> {
    pub control: C,
    pub end: Option<End>,
}

// The old core's state but for its registers, which are lent beside it.
#[derive(Clone, Copy)]
pub struct OldControl {
    pub flags: Flags,
    pub pc: SourcePc,
    pub npc: SourcePc,
    // set where it is not 0: as a bool (tried), it is packed and unpacked at each step, which then takes half as many instructions again
    pub annul: u32,
}

impl OldControl {
    // The run goes on: PC becomes nPC, and nPC the address given.
    pub fn advance(self, next: SourcePc, annul: u32) -> Self
        ensures { (rs a : List ℕ) → old_of rs result a ≡ old (machine rs self.flags.nzvc a) self.npc.0 next.0 (is_set annul) }
    {
        OldControl {
            pc: self.npc,
            npc: next,
            annul,
            ..self
        }
    }

    // The run goes on with the word after nPC.
    pub fn follow(self) -> Self
        ensures { (rs a : List ℕ) → old_of rs result a ≡ follows self.npc.0 (machine rs self.flags.nzvc a) }
    {
        self.advance(self.npc.further(4), 0)
    }
}

// The old core's state.
#[derive(Drop)]
pub struct OldCore {
    pub registers: File,
    pub standing: Standing<OldControl>,
}

#[tactic(auto, unfolding(crate::specs::OldState::start_values))]
impl OldCore {
    // The start values: all registers, Y, nesting and windows 0, all flags clear. Each core has its own, as its counters differ.
    pub fn new() -> Self
        ensures { result ≡ start_values }
    {
        OldCore {
            registers: [0; FILE],
            standing: Standing {
                control: OldControl {
                    flags: Flags::CLEAR,
                    pc: SourcePc(0),
                    npc: SourcePc(0),
                    annul: 0,
                },
                end: None,
            },
        }
    }
}

// The new core's state but for its registers, which are lent beside it: the record at hand, and the held address.
#[derive(Clone, Copy)]
pub struct NewControl {
    pub flags: Flags,
    pub at: TargetPc,
    pub held: SourcePc,
}

#[tactic(auto, unfolding(machine::specs::Ends::ending_of))]
impl NewControl {
    // The run goes on at a record.
    pub fn go_to(self, to: TargetPc) -> Self
        ensures { (rs a : List ℕ) → new_of rs result a ≡ new (machine rs self.flags.nzvc a) to.0 self.held.0 }
    {
        NewControl { at: to, ..self }
    }

    // The run goes on at the next record.
    pub fn follow(self) -> Self
        ensures { (rs a : List ℕ) → new_of rs result a ≡ following self.at.0 self.held.0 (machine rs self.flags.nzvc a) }
    {
        self.go_to(TargetPc(numbers::add(self.at.0, 1)))
    }

    // The record at hand is a bad one.
    pub fn bad(self) -> End
        ensures { ending_of result ≡ ending 7 self.at.0 }
    {
        End::BadRecord(self.at)
    }
}

// The new core's state.
#[derive(Drop)]
pub struct NewCore {
    pub registers: File,
    pub standing: Standing<NewControl>,
}

#[tactic(auto, unfolding(crate::specs::NewState::new_start_values))]
impl NewCore {
    // The start values: all registers, Y, nesting and windows 0, all flags clear.
    pub fn new() -> Self
        ensures { result ≡ new_start_values }
    {
        NewCore {
            registers: [0; FILE],
            standing: Standing {
                control: NewControl {
                    flags: Flags::CLEAR,
                    at: TargetPc(0),
                    held: SourcePc(0),
                },
                end: None,
            },
        }
    }
}

// The byte of each core's state from which on stands what the file has behind the registers, and how many bytes a state has. The C interface
// names the lengths (include/pijorrel.h), and the positions in these bytes are its own.
pub const OLD_BEHIND: usize = 152;

pub const OLD_STATE: usize = 672;

pub const NEW_BEHIND: usize = 148;

pub const NEW_STATE: usize = 668;

// The file's numbers in a state's bytes: numbers 0 to 31, and behind them those from a position.
fn read_file(bytes: &[u8], behind: usize, regs: &mut [u32])
    requires { (128 ≤ behind) × (behind + 4 * (file_size - 32) ≤ length bytes.now) × (length regs.old ≡ file_size) }
    ensures { regs.new ≡ file_in behind bytes.now }
{
    numbers::read_numbers(bytes, &mut regs[..32]);
    numbers::read_numbers(&bytes[behind..], &mut regs[32..]);
}

// The file of a state's bytes, as it counts. It is lent, so that nothing copies it.
pub fn file_in(bytes: &[u8], behind: usize, regs: &mut File)
    requires { (128 ≤ behind) × (behind + 4 * (file_size - 32) ≤ length bytes.now) }
    ensures { regs.new ≡ come_in (file_in behind bytes.now) }
{
    read_file(bytes, behind, regs);
    windows::come_in(regs);
}

// The flags of a state's bytes: their number's low four bits count.
pub fn flags_in(bytes: &[u8]) -> Flags
    requires { 132 ≤ length bytes.now }
    ensures { result.nzvc ≡ number_at bytes.now 128 % 16 }
{
    Flags {
        nzvc: numbers::read_number(bytes, 128) % 16,
    }
}

// The end that stands in a state's bytes at a position, with the number beside it.
pub fn end_in(bytes: &[u8], at: usize) -> Option<End>
    requires { at + 8 ≤ length bytes.now }
    ensures { standing_of result ≡ ending_from (number_at bytes.now at) (number_at bytes.now (at + 4)) }
{
    Ended {
        end: numbers::read_number(bytes, at),
        number: numbers::read_number(bytes, at + 4),
    }
    .into()
}

// Fills a state's bytes: the registers, the flags and a core's own numbers, and what the file has behind the registers.
fn write_state(bytes: &mut [u8], regs: &[u32], rest: &[u32])
    requires { (length regs.now ≡ file_size) × (length bytes.old ≡ 128 + 4 * length rest.now + 4 * (file_size - 32)) }
    ensures { bytes.new ≡ bytes_of (take 32 regs.now ++ (rest.now ++ drop 32 regs.now)) }
{
    numbers::write_numbers(bytes, 0, &regs[..32]);
    numbers::write_numbers(bytes, 128, rest);
    numbers::write_numbers(bytes, 128 + 4 * rest.len(), &regs[32..]);
}

// The same of a file in a run, the current window laid among the others.
pub fn put_state(bytes: &mut [u8], regs: &mut File, rest: &[u32])
    requires { length bytes.old ≡ 128 + 4 * length rest.now + 4 * (file_size - 32) }
    ensures { (regs.new ≡ laid regs.old) × (bytes.new ≡ bytes_of (take 32 (laid regs.old) ++ (rest.now ++ drop 32 (laid regs.old)))) }
{
    windows::lay_down(regs);
    write_state(bytes, regs, rest);
}
