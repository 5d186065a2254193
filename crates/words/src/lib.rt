// SPARC V8 instruction words: the fields cut from a word, the instruction that it reads as, and the conditions.
#![tactic(auto)]

ghost use Rattle.std.specs.Prelude.{◌≡◌, ◌||◌, ◌<◌, ◌^◌, MatchBool};
ghost use Rattle.numbers.specs.Choice.{find};
ghost use Rattle.numbers.specs.Number.{signed};
ghost use Rattle.words.specs.declared.Instruction.TheVariants.{Illegal, Arithmetic, Jmpl, Ticc, Load, Store, Shift, Rdy, Wry, Window};
ghost use Rattle.words.specs.Reader.{bits, bit_set, register_strays, set_from, rdy_strays, strictly, operand_of, sources, format0_of, none2, other_rows, format2_of, format3_of, instruction_of, is_unimp, as_jmpl};
ghost use Rattle.words.specs.Conditions.{bit_at, holds_of};

// The second operand: a register, or a constant. A shift's constant has 5 bits and a Ticc's 7; any other is a signed one of 13, extended to 32.
#[derive(Clone, Copy)]
pub enum Operand {
    Register(usize),
    Constant(u32),
}

#[derive(Clone, Copy)]
pub enum Operation {
    Add,
    And,
    Or,
    Xor,
    Sub,
    Andn,
    Orn,
    Xnor,
    Addx,
    Subx,
    Umul,
    Smul,
}

// A shift has no flag form.
#[derive(Clone, Copy)]
pub enum ShiftOperation {
    Sll,
    Srl,
    Sra,
}

// Into the next register window and back.
#[derive(Clone, Copy)]
pub enum WindowOperation {
    Save,
    Restore,
}

// A byte and a half are loaded with or without their sign extended.
#[derive(Clone, Copy)]
pub enum LoadOperation {
    Ld,
    Ldub,
    Lduh,
    Ldsb,
    Ldsh,
}

// How much a store moves: 1, 2 or 4 bytes.
#[derive(Clone, Copy)]
pub enum Width {
    Byte,
    Half,
    Word,
}

// rs1 and the second operand as one, so that they lie where those of other words lie behind rd: as two fields of a wry they kept the compiler
// from taking instructions apart.
#[derive(Clone, Copy)]
pub struct Sources {
    pub rs1: u32,
    pub operand: Operand,
}

// What a word reads as: illegal, or an instruction. Each instruction has one word, if its numbers fit their fields. Displacements
// count words and are signed, extended to 32 bits. Illegal is a variant and no None, and a cond or a register any number: `ReadsBack` and
// `WritesAgain` speak of all of them. rd, rs1 and the second operand stand apart, as V8 names them: in a struct each use would take it apart.
#[derive(Clone, Copy)]
pub enum Instruction {
    Illegal,
    // disp30
    Call(u32),
    // rd, imm22
    Sethi(u32, u32),
    // cond, annul bit, disp22
    Bicc(u32, bool, u32),
    // operation, whether it sets the flags, rd, rs1, second operand
    Arithmetic(Operation, bool, u32, u32, Operand),
    // rd, rs1, second operand
    Jmpl(u32, u32, Operand),
    // cond, rs1, second operand
    Ticc(u32, u32, Operand),
    // operation, rd, rs1, second operand
    Load(LoadOperation, u32, u32, Operand),
    // width, rd, rs1, second operand
    Store(Width, u32, u32, Operand),
    // operation, rd, rs1, second operand
    Shift(ShiftOperation, u32, u32, Operand),
    // rd
    Rdy(u32),
    // rs1, second operand
    Wry(Sources),
    // operation, rd, rs1, second operand
    Window(WindowOperation, u32, u32, Operand),
}

// What an instruction does to control: all that the rules of places and records tell apart. An illegal word's is one of them and no None, as
// `flow_of` has it.
#[derive(Clone, Copy)]
pub enum Flow {
    // an illegal word
    Faults,
    Continues,
    // a Ticc that is always taken
    Traps,
    // disp30
    Calls(u32),
    // cond, annul bit, disp22
    Branches(u32, bool, u32),
    // rd
    Jumps(u32),
}

// The bits of the field that a number of an instruction does not fit: of several, the one highest in the word.
#[derive(Clone, Copy, Debug, PartialEq, Eq)]
pub struct Unfit(pub u32);

// ---- the fields of a word, as V8 draws them

// So many bits of a word, from the lowest of them.
#[inline(always)]
#[tactic(auto, using(crate::proofs::Reader::masked))]
fn bits(word: u32, low: u32, width: u32) -> u32
    requires { (low < 32) × (width < 32) }
    ensures value { result ≡ bits word low width }
    ensures below { result < 2 ^ width }
{
    (word >> low) & ((1 << width) - 1)
}

#[inline(always)]
#[tactic(auto, unfolding(crate::specs::Reader::bit_set))]
fn bit(word: u32, n: u32) -> bool
    requires { n < 32 }
    ensures { result ≡ bit_set word n }
{
    bits(word, n, 1) == 1
}

pub fn op(word: u32) -> u32
    ensures { result ≡ bits word 30 2 }
{
    bits(word, 30, 2)
}

pub fn op2(word: u32) -> u32
    ensures { result ≡ bits word 22 3 }
{
    bits(word, 22, 3)
}

pub fn op3(word: u32) -> u32
    ensures { result ≡ bits word 19 6 }
{
    bits(word, 19, 6)
}

pub fn cond(word: u32) -> u32
    ensures { result ≡ bits word 25 4 }
{
    bits(word, 25, 4)
}

pub fn annul_bit(word: u32) -> bool
    ensures { result ≡ bit_set word 29 }
{
    bit(word, 29)
}

pub fn rd(word: u32) -> u32
    ensures { result ≡ bits word 25 5 }
{
    bits(word, 25, 5)
}

fn rs1(word: u32) -> u32
    ensures { result ≡ bits word 14 5 }
{
    bits(word, 14, 5)
}

fn rs2(word: u32) -> u32
    ensures { result ≡ bits word 0 5 }
{
    bits(word, 0, 5)
}

pub fn constant_bit(word: u32) -> bool
    ensures { result ≡ bit_set word 13 }
{
    bit(word, 13)
}

fn imm22(word: u32) -> u32
    ensures { result ≡ bits word 0 22 }
{
    bits(word, 0, 22)
}

fn simm13(word: u32) -> u32
    ensures { result ≡ signed 13 (bits word 0 13) }
{
    numbers::signed(13, bits(word, 0, 13))
}

pub fn disp22(word: u32) -> u32
    ensures { result ≡ signed 22 (bits word 0 22) }
{
    numbers::signed(22, bits(word, 0, 22))
}

pub fn disp30(word: u32) -> u32
    ensures { result ≡ signed 30 (bits word 0 30) }
{
    numbers::signed(30, bits(word, 0, 30))
}

// ---- the reader

#[tactic(auto, unfolding(crate::specs::Reader::operand_of))]
fn second_operand(word: u32) -> Operand
    ensures { result ≡ operand_of word }
{
    if constant_bit(word) {
        Operand::Constant(simm13(word))
    } else {
        Operand::Register(rs2(word) as usize)
    }
}

// Bits 12 to 5 and bits 12 to 7, which some words do not use.
pub fn high8(word: u32) -> u32
    ensures { result ≡ bits word 5 8 }
{
    bits(word, 5, 8)
}

fn high6(word: u32) -> u32
    ensures { result ≡ bits word 7 6 }
{
    bits(word, 7, 6)
}

// Whether a bit is set that a Ticc does not use beside a constant, or its bit 29.
#[tactic(auto, unfolding(crate::specs::Reader::set_from))]
pub fn trap_strays(word: u32) -> bool
    ensures { result ≡ bit_set word 29 || set_from 7 word }
{
    annul_bit(word) || high6(word) != 0
}

// What each form makes of a word: its fields are cut and its unused bits tested here, by op3 and not before, so that no word pays for another.
// A form is a line of its own, whose contract says what it makes; what they share stands in `unless_strays`.

// What is made of rd, rs1 and the second operand, unless a bit is set that is unused where this is a register. A constant is told first, and only a
// register's word is tested.
#[inline(always)]
#[tactic(auto, unfolding(crate::specs::Reader::register_strays, crate::specs::Reader::set_from, crate::specs::Reader::operand_of))]
fn unless_strays<F: FnOnce(u32, u32, Operand) -> Instruction>(word: u32, make: F) -> Instruction
    requires { F.IsAlwaysCallable make }
    ensures { MatchBool (register_strays word) (result ≡ Illegal) (F.post make (bits word 25 5) (bits word 14 5) (operand_of word) result) }
{
    if constant_bit(word) {
        return make(rd(word), rs1(word), Operand::Constant(simm13(word)));
    }
    if high8(word) != 0 {
        return Instruction::Illegal;
    }
    make(rd(word), rs1(word), Operand::Register(rs2(word) as usize))
}

#[tactic(auto, using(crate::proofs::Reader::made), unfolding(crate::specs::Reader::strictly, crate::specs::Reader::unused_set))]
fn arithmetic(o: Operation, cc: bool, word: u32) -> Instruction
    ensures { result ≡ strictly word (Arithmetic o cc (bits word 25 5) (bits word 14 5) (operand_of word)) }
{
    unless_strays(
        word,
        |rd, rs1, x| Instruction::Arithmetic(o, cc, rd, rs1, x),
    )
}

#[tactic(auto, using(crate::proofs::Reader::made), unfolding(crate::specs::Reader::strictly, crate::specs::Reader::unused_set))]
fn jump(word: u32) -> Instruction
    ensures { result ≡ strictly word (Jmpl (bits word 25 5) (bits word 14 5) (operand_of word)) }
{
    unless_strays(word, |rd, rs1, x| Instruction::Jmpl(rd, rs1, x))
}

#[tactic(auto, using(crate::proofs::Reader::made), unfolding(crate::specs::Reader::strictly, crate::specs::Reader::unused_set))]
fn load(o: LoadOperation, word: u32) -> Instruction
    ensures { result ≡ strictly word (Load o (bits word 25 5) (bits word 14 5) (operand_of word)) }
{
    unless_strays(word, |rd, rs1, x| Instruction::Load(o, rd, rs1, x))
}

#[tactic(auto, using(crate::proofs::Reader::made), unfolding(crate::specs::Reader::strictly, crate::specs::Reader::unused_set))]
fn store(w: Width, word: u32) -> Instruction
    ensures { result ≡ strictly word (Store w (bits word 25 5) (bits word 14 5) (operand_of word)) }
{
    unless_strays(word, |rd, rs1, x| Instruction::Store(w, rd, rs1, x))
}

#[tactic(auto, unfolding(crate::specs::Reader::strictly, crate::specs::Reader::unused_set, crate::specs::Reader::set_from))]
fn shift(o: ShiftOperation, word: u32) -> Instruction
    ensures { result ≡ strictly word (Shift o (bits word 25 5) (bits word 14 5) (operand_of word)) }
{
    if high8(word) != 0 {
        return Instruction::Illegal;
    }
    Instruction::Shift(o, rd(word), rs1(word), second_operand(word))
}

#[tactic(auto, using(crate::proofs::Reader::made), unfolding(crate::specs::Reader::strictly, crate::specs::Reader::unused_set))]
fn window(o: WindowOperation, word: u32) -> Instruction
    ensures { result ≡ strictly word (Window o (bits word 25 5) (bits word 14 5) (operand_of word)) }
{
    unless_strays(word, |rd, rs1, x| Instruction::Window(o, rd, rs1, x))
}

#[tactic(auto, unfolding(crate::specs::Reader::strictly, crate::specs::Reader::unused_set))]
fn trap(word: u32) -> Instruction
    ensures { result ≡ strictly word (Ticc (bits word 25 4) (bits word 14 5) (operand_of word)) }
{
    if trap_strays(word) {
        return Instruction::Illegal;
    }
    let cond = cond(word);
    unless_strays(word, |_, rs1, x| Instruction::Ticc(cond, rs1, x))
}

// Bits 13 to 0, which a rdy does not use; nor does it use rs1, nor a wry rd.
fn low14(word: u32) -> u32
    ensures { result ≡ bits word 0 14 }
{
    bits(word, 0, 14)
}

#[tactic(auto, unfolding(crate::specs::Reader::rdy_strays))]
pub fn rdy_strays(word: u32) -> bool
    ensures { result ≡ rdy_strays word }
{
    rs1(word) != 0 || low14(word) != 0
}

#[tactic(auto, unfolding(crate::specs::Reader::strictly, crate::specs::Reader::unused_set))]
fn rdy(word: u32) -> Instruction
    ensures { result ≡ strictly word (Rdy (bits word 25 5)) }
{
    if rdy_strays(word) {
        return Instruction::Illegal;
    }
    Instruction::Rdy(rd(word))
}

#[tactic(auto, unfolding(crate::specs::Reader::strictly, crate::specs::Reader::unused_set, crate::specs::Reader::wry_strays))]
fn wry(word: u32) -> Instruction
    ensures { result ≡ strictly word (Wry (sources (bits word 14 5) (operand_of word))) }
{
    if rd(word) != 0 {
        return Instruction::Illegal;
    }
    unless_strays(
        word,
        |_, rs1, operand| Instruction::Wry(Sources { rs1, operand }),
    )
}

// Format 0, by op2: branches and sethi.
#[tactic(auto, unfolding(crate::specs::Reader::format0_of))]
fn format0(word: u32) -> Instruction
    ensures { result ≡ format0_of word }
{
    match op2(word) {
        2 => Instruction::Bicc(cond(word), annul_bit(word), disp22(word)),
        4 => Instruction::Sethi(rd(word), imm22(word)),
        _ => Instruction::Illegal,
    }
}

// Format 2, by op3: shifts, Y, jmpl, Ticc and windows.
#[tactic(auto, unfolding(crate::specs::Reader::strictly, crate::specs::Reader::unused_set))]
fn other2(op3: u32, word: u32) -> Instruction
    ensures { result ≡ strictly word (find other_rows none2 op3 (bits word 25 4) (bits word 25 5) (bits word 14 5) (operand_of word)) }
{
    match op3 {
        37 => shift(ShiftOperation::Sll, word),
        38 => shift(ShiftOperation::Srl, word),
        39 => shift(ShiftOperation::Sra, word),
        40 => rdy(word),
        48 => wry(word),
        56 => jump(word),
        58 => trap(word),
        60 => window(WindowOperation::Save, word),
        61 => window(WindowOperation::Restore, word),
        _ => Instruction::Illegal,
    }
}

// Format 2, by op3: arithmetic, and the others.
#[tactic(auto, unfolding(crate::specs::Reader::format2_of))]
fn format2(op3: u32, word: u32) -> Instruction
    ensures { result ≡ strictly word (format2_of op3 (bits word 25 4) (bits word 25 5) (bits word 14 5) (operand_of word)) }
{
    match op3 {
        0 => arithmetic(Operation::Add, false, word),
        1 => arithmetic(Operation::And, false, word),
        2 => arithmetic(Operation::Or, false, word),
        3 => arithmetic(Operation::Xor, false, word),
        4 => arithmetic(Operation::Sub, false, word),
        5 => arithmetic(Operation::Andn, false, word),
        6 => arithmetic(Operation::Orn, false, word),
        7 => arithmetic(Operation::Xnor, false, word),
        8 => arithmetic(Operation::Addx, false, word),
        10 => arithmetic(Operation::Umul, false, word),
        11 => arithmetic(Operation::Smul, false, word),
        12 => arithmetic(Operation::Subx, false, word),
        16 => arithmetic(Operation::Add, true, word),
        17 => arithmetic(Operation::And, true, word),
        18 => arithmetic(Operation::Or, true, word),
        19 => arithmetic(Operation::Xor, true, word),
        20 => arithmetic(Operation::Sub, true, word),
        21 => arithmetic(Operation::Andn, true, word),
        22 => arithmetic(Operation::Orn, true, word),
        23 => arithmetic(Operation::Xnor, true, word),
        24 => arithmetic(Operation::Addx, true, word),
        26 => arithmetic(Operation::Umul, true, word),
        27 => arithmetic(Operation::Smul, true, word),
        28 => arithmetic(Operation::Subx, true, word),
        _ => other2(op3, word),
    }
}

// Format 3, by op3: loads and stores.
#[tactic(auto, unfolding(crate::specs::Reader::format3_of, crate::specs::Reader::strictly, crate::specs::Reader::unused_set))]
fn format3(op3: u32, word: u32) -> Instruction
    ensures { result ≡ strictly word (format3_of op3 (bits word 25 5) (bits word 14 5) (operand_of word)) }
{
    match op3 {
        0 => load(LoadOperation::Ld, word),
        1 => load(LoadOperation::Ldub, word),
        2 => load(LoadOperation::Lduh, word),
        4 => store(Width::Word, word),
        5 => store(Width::Byte, word),
        6 => store(Width::Half, word),
        9 => load(LoadOperation::Ldsb, word),
        10 => load(LoadOperation::Ldsh, word),
        _ => Instruction::Illegal,
    }
}

// The instruction that a word reads as. A word with an unused bit set is illegal.
pub fn read_instruction(word: u32) -> Instruction
    ensures { result ≡ instruction_of word }
{
    match op(word) {
        0 => format0(word),
        1 => Instruction::Call(disp30(word)),
        2 => format2(op3(word), word),
        _ => format3(op3(word), word),
    }
}

// The same, for a jmpl alone. Where only a jmpl will do, this is quicker, and the whole reader keeps its one caller.
#[tactic(auto, using(crate::proofs::Jmpl::jmpl_read, crate::proofs::Jmpl::no_jmpl_op, crate::proofs::Jmpl::no_jmpl_op3))]
pub fn read_jmpl(word: u32) -> Instruction
    ensures { result ≡ as_jmpl (instruction_of word) }
{
    if op(word) == 2 && op3(word) == 56 {
        return jump(word);
    }
    Instruction::Illegal
}

// Whether a word is an unimp, by its raw bits.
#[tactic(auto, unfolding(crate::specs::Reader::is_unimp))]
pub fn is_unimp(word: u32) -> bool
    ensures { result ≡ is_unimp word }
{
    op(word) == 0 && op2(word) == 0
}

// ---- conditions

// A row for each condition, in it a bit for each value of 8N + 4Z + 2V + C, lowest first.
const CONDITIONS: [u16; 16] = [
    0x0000, 0xF0F0, 0xF3FC, 0x33CC, 0xFAFA, 0xAAAA, 0xFF00, 0xCCCC, 0xFFFF, 0x0F0F, 0x0C03, 0xCC33,
    0x0505, 0x5555, 0x00FF, 0x3333,
];

#[tactic(auto, unfolding(crate::specs::Conditions::bit_at, crate::specs::Reader::bit_set, crate::specs::Reader::bits))]
fn bit_at(row: u16, n: u32) -> bool
    requires { n < 16 }
    ensures { result ≡ bit_at row n }
{
    bit(u32::from(row), n)
}

// Whether a condition holds of the flags 8N + 4Z + 2V + C, of which the low four bits count; one above 15 never does.
pub fn holds(cond: u32, nzvc: u32) -> bool
    ensures { result ≡ holds_of cond nzvc }
{
    match CONDITIONS.get(cond as usize) {
        Some(row) => bit_at(*row, nzvc % 16),
        None => false,
    }
}
