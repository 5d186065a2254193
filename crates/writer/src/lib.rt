// The word of an instruction, field behind field, or the bits of the field that a number of it does not fit.
#![tactic(auto)]

ghost use Rattle.std.specs.Prelude.{◌≡◌, false, List, [], ◌∷◌, ℕ, ◌-◌, ◌<◌, Ok};
ghost use Rattle.words.specs.declared.Operand.TheVariants.{Register};
ghost use Rattle.words.specs.Writer.{Field, plain, with_sign, behind, joined, operand, constant13, arithmetic_op3, shift_op3, window_op3, load_op3, store_op3, long_word, shift_word, rdy_word, wry_word, trap_word, sethi_word, branch_word, call_word, written_of};

use words::{
    Instruction, LoadOperation, Operand, Operation, ShiftOperation, Sources, Unfit, Width,
    WindowOperation,
};

// The bits so far with a field of so many bits behind them.
#[tactic(auto, using(crate::proofs::Fields::put_fits))]
fn put_field(word: u32, width: u32, v: u32) -> Result<u32, Unfit>
    requires { width < 32 }
    ensures { result ≡ behind (Ok word) (plain width v) }
{
    if v >> width != 0 {
        return Err(Unfit(width));
    }
    Ok(numbers::add(word << width, v))
}

// The same for a signed number.
fn put_signed(word: u32, width: u32, v: u32) -> Result<u32, Unfit>
    requires { (0 < width) × (width < 32) }
    ensures { result ≡ behind (Ok word) (with_sign width v) }
{
    let half = 1 << (width - 1);
    if v < half || u32::MAX - half < v {
        return put_field(word, width, v % (half + half));
    }
    Err(Unfit(width))
}

// A register, its number behind clear bits.
fn put_register(word: u32, i: usize) -> Result<u32, Unfit>
    ensures { result ≡ joined (Ok word) (plain 1 0 ∷ plain 8 0 ∷ plain 5 i ∷ []) }
{
    let clear = put_field(put_field(word, 1, 0)?, 8, 0)?;
    if i < 32 {
        return put_field(clear, 5, i as u32);
    }
    Err(Unfit(5))
}

// The second operand, its constant a signed one of 13 bits.
fn put_operand(word: u32, x: Operand) -> Result<u32, Unfit>
    ensures { result ≡ joined (Ok word) (operand constant13 x) }
{
    match x {
        Operand::Register(i) => put_register(word, i),
        Operand::Constant(k) => put_signed(put_field(word, 1, 1)?, 13, k),
    }
}

// The same, its constant one of so few bits, without a sign, behind clear ones.
fn put_low_operand(word: u32, width: u32, x: Operand) -> Result<u32, Unfit>
    requires { width < 13 }
    ensures { result ≡ joined (Ok word) (operand (λ k. plain (13 - width) 0 ∷ plain width k ∷ []) x) }
{
    match x {
        Operand::Register(i) => put_register(word, i),
        Operand::Constant(k) => put_field(
            put_field(put_field(word, 1, 1)?, 13 - width, 0)?,
            width,
            k,
        ),
    }
}

// op, rd, op3 and rs1.
fn upper(op: u32, rd: u32, op3: u32, rs1: u32) -> Result<u32, Unfit>
    ensures { result ≡ joined (Ok op) (plain 5 rd ∷ plain 6 op3 ∷ plain 5 rs1 ∷ []) }
{
    put_field(put_field(put_field(op, 5, rd)?, 6, op3)?, 5, rs1)
}

#[tactic(auto, unfolding(words::specs::Writer::long_word))]
pub fn long_word(op: u32, rd: u32, op3: u32, rs1: u32, x: Operand) -> Result<u32, Unfit>
    ensures { result ≡ long_word op rd op3 rs1 x }
{
    put_operand(upper(op, rd, op3, rs1)?, x)
}

#[tactic(auto, unfolding(words::specs::Writer::shift_word))]
pub fn shift_word(rd: u32, op3: u32, rs1: u32, x: Operand) -> Result<u32, Unfit>
    ensures { result ≡ shift_word rd op3 rs1 x }
{
    put_low_operand(upper(2, rd, op3, rs1)?, 5, x)
}

// What they do not use is written as 0: rs1 and the second operand of a rdy, rd of a wry.
#[tactic(auto, unfolding(words::specs::Writer::rdy_word))]
pub fn rdy_word(rd: u32) -> Result<u32, Unfit>
    ensures { result ≡ rdy_word rd }
{
    long_word(2, rd, 40, 0, Operand::Register(0))
}

#[tactic(auto, unfolding(words::specs::Writer::wry_word))]
pub fn wry_word(rs1: u32, x: Operand) -> Result<u32, Unfit>
    ensures { result ≡ wry_word rs1 x }
{
    long_word(2, 0, 48, rs1, x)
}

#[tactic(auto, unfolding(words::specs::Writer::trap_word))]
pub fn trap_word(cond: u32, rs1: u32, x: Operand) -> Result<u32, Unfit>
    ensures { result ≡ trap_word cond rs1 x }
{
    let first = put_field(put_field(2, 1, 0)?, 4, cond)?;
    put_low_operand(put_field(put_field(first, 6, 58)?, 5, rs1)?, 7, x)
}

#[tactic(auto, unfolding(words::specs::Writer::sethi_word))]
pub fn sethi_word(rd: u32, imm: u32) -> Result<u32, Unfit>
    ensures { result ≡ sethi_word rd imm }
{
    put_field(put_field(put_field(0, 5, rd)?, 3, 4)?, 22, imm)
}

#[tactic(auto, unfolding(words::specs::Writer::branch_word))]
pub fn branch_word(cond: u32, annul: bool, disp: u32) -> Result<u32, Unfit>
    ensures { result ≡ branch_word cond annul disp }
{
    let first = put_field(put_field(0, 1, u32::from(annul))?, 4, cond)?;
    put_signed(put_field(first, 3, 2)?, 22, disp)
}

#[tactic(auto, unfolding(words::specs::Writer::call_word))]
pub fn call_word(disp: u32) -> Result<u32, Unfit>
    ensures { result ≡ call_word disp }
{
    put_signed(1, 30, disp)
}

// The op3 of each operation. An `impl From` for u32 would be the same match, under a name that does not say op3.

#[tactic(auto, unfolding(words::specs::Writer::arithmetic_op3))]
fn plain_op3(o: Operation) -> u32
    ensures { (result ≡ arithmetic_op3 o false) × (result < 16) }
{
    match o {
        Operation::Add => 0,
        Operation::And => 1,
        Operation::Or => 2,
        Operation::Xor => 3,
        Operation::Sub => 4,
        Operation::Andn => 5,
        Operation::Orn => 6,
        Operation::Xnor => 7,
        Operation::Addx => 8,
        Operation::Umul => 10,
        Operation::Smul => 11,
        Operation::Subx => 12,
    }
}

// The flag form has bit 4 of op3 set.
#[tactic(auto, using(crate::proofs::Fields::flag_form))]
pub fn arithmetic_op3(o: Operation, cc: bool) -> u32
    ensures { (result ≡ arithmetic_op3 o cc) × (result < 64) }
{
    let k = plain_op3(o);
    if cc {
        return k + 16;
    }
    k
}

#[tactic(auto, unfolding(words::specs::Writer::shift_op3))]
pub fn shift_op3(o: ShiftOperation) -> u32
    ensures { (result ≡ shift_op3 o) × (result < 64) }
{
    match o {
        ShiftOperation::Sll => 37,
        ShiftOperation::Srl => 38,
        ShiftOperation::Sra => 39,
    }
}

#[tactic(auto, unfolding(words::specs::Writer::window_op3))]
pub fn window_op3(o: WindowOperation) -> u32
    ensures { (result ≡ window_op3 o) × (result < 64) }
{
    match o {
        WindowOperation::Save => 60,
        WindowOperation::Restore => 61,
    }
}

#[tactic(auto, unfolding(words::specs::Writer::load_op3))]
pub fn load_op3(o: LoadOperation) -> u32
    ensures { (result ≡ load_op3 o) × (result < 64) }
{
    match o {
        LoadOperation::Ld => 0,
        LoadOperation::Ldub => 1,
        LoadOperation::Lduh => 2,
        LoadOperation::Ldsb => 9,
        LoadOperation::Ldsh => 10,
    }
}

#[tactic(auto, unfolding(words::specs::Writer::store_op3))]
pub fn store_op3(w: Width) -> u32
    ensures { (result ≡ store_op3 w) × (result < 64) }
{
    match w {
        Width::Byte => 5,
        Width::Half => 6,
        Width::Word => 4,
    }
}

// The word of an instruction, unused bits 0. What is no instruction is refused with 0 bits.
#[tactic(auto, unfolding(words::specs::Writer::written_of))]
pub fn write_instruction(i: Instruction) -> Result<u32, Unfit>
    ensures { result ≡ written_of i }
{
    match i {
        Instruction::Illegal => Err(Unfit(0)),
        Instruction::Call(disp) => call_word(disp),
        Instruction::Sethi(rd, imm) => sethi_word(rd, imm),
        Instruction::Bicc(cond, annul, disp) => branch_word(cond, annul, disp),
        Instruction::Arithmetic(o, cc, rd, rs1, x) => long_word(
            2,
            rd,
            arithmetic_op3(o, cc),
            rs1,
            x,
        ),
        Instruction::Jmpl(rd, rs1, x) => long_word(2, rd, 56, rs1, x),
        Instruction::Ticc(cond, rs1, x) => trap_word(cond, rs1, x),
        Instruction::Load(o, rd, rs1, x) => long_word(3, rd, load_op3(o), rs1, x),
        Instruction::Store(w, rd, rs1, x) => long_word(3, rd, store_op3(w), rs1, x),
        Instruction::Shift(o, rd, rs1, x) => shift_word(rd, shift_op3(o), rs1, x),
        Instruction::Rdy(rd) => rdy_word(rd),
        Instruction::Wry(Sources { rs1, operand }) => wry_word(rs1, operand),
        Instruction::Window(o, rd, rs1, x) => long_word(2, rd, window_op3(o), rs1, x),
    }
}
