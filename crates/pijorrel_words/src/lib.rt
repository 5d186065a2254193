// The reader and the writer of words for a planner in C: an instruction is six numbers, 24 bytes, big-endian.
#![tactic(auto)]

ghost use Rattle.std.specs.Prelude.{◌≡◌, ◌%◌, [], ◌∷◌};
ghost use Rattle.words.specs.Reader.{format2_of};
ghost use Rattle.words.specs.Writer.{written_of};
ghost use Rattle.pijorrel_words.specs.Forms.{with_operand, six_of, operand_from, by_op, instruction_from, answer_of, writes, reads};

use words::{Instruction, Operand, Sources, Unfit};

// 0 and the word, or 7 and the bits of the field, as C has them. An instruction's six numbers (form, annul, rd, rs1, mark, value) are C's too:
// below they become types and come of them, any numbers, known or not.
#[repr(C)]
#[derive(Clone, Copy)]
pub struct PijorrelWritten {
    pub number: u32,
    pub value: u32,
}

// Any mark but 0 is that of a constant.
#[tactic(auto, unfolding(crate::specs::Forms::operand_from))]
fn operand_from(mark: u32, v: u32) -> Operand
    ensures { result ≡ operand_from mark v }
{
    if mark == 0 {
        return Operand::Register(v as usize);
    }
    Operand::Constant(v)
}

// The word of a form of format 2. It is put together by its op3: an instruction between would take that apart first.
#[tactic(auto, using(crate::proofs::Laws::form_2))]
fn write2(op3: u32, rd: u32, rs1: u32, x: Operand) -> Result<u32, Unfit>
    ensures { result ≡ written_of (format2_of op3 rd rd rs1 x) }
{
    if flows::is_form2(op3) {
        if op3 == 58 {
            return writer::trap_word(rd, rs1, x);
        }
        if numbers::subtract(op3, 37) < 3 {
            return writer::shift_word(rd, op3, rs1, x);
        }
        if op3 == 40 {
            return writer::rdy_word(rd);
        }
        if op3 == 48 {
            return writer::wry_word(rs1, x);
        }
        return writer::long_word(2, rd, op3, rs1, x);
    }
    Err(Unfit(0))
}

// The word of a form of format 2 or 3.
#[tactic(auto, using(crate::proofs::Laws::form_3), unfolding(crate::specs::Forms::by_op, words::specs::Writer::written_of))]
fn write_by_op(form: u32, rd: u32, rs1: u32, x: Operand) -> Result<u32, Unfit>
    ensures { result ≡ written_of (by_op form rd rs1 x) }
{
    let k = form / 64;
    if k == 2 {
        return write2(form % 64, rd, rs1, x);
    }
    if k == 3 {
        if flows::is_form3(form % 64) {
            return writer::long_word(3, rd, form % 64, rs1, x);
        }
    }
    Err(Unfit(0))
}

// The word of six numbers.
fn write_six(form: u32, annul: u32, rd: u32, rs1: u32, mark: u32, v: u32) -> Result<u32, Unfit>
    ensures { result ≡ written_of (instruction_from form annul rd rs1 mark v) }
{
    let a = annul != 0;
    match form {
        2 => writer::branch_word(rd, a, v),
        4 => writer::sethi_word(rd, v),
        64 => writer::call_word(v),
        _ => write_by_op(form, rd, rs1, operand_from(mark, v)),
    }
}

impl From<Result<u32, Unfit>> for PijorrelWritten {
    ghost from_gives = { λ w r. r.number ∷ r.value ∷ [] ≡ answer_of w };

    #[tactic(auto, unfolding(crate::specs::Forms::answer_of))]
    fn from(w: Result<u32, Unfit>) -> PijorrelWritten {
        match w {
            Ok(value) => PijorrelWritten { number: 0, value },
            Err(Unfit(value)) => PijorrelWritten { number: 7, value },
        }
    }
}

// The word of an instruction, or a refusal.
#[tactic(auto, unfolding(crate::specs::Forms::writes))]
pub fn pijorrel_write(instruction: &[u8; 24]) -> PijorrelWritten
    ensures { result.number ∷ result.value ∷ [] ≡ writes instruction.now }
{
    let form = numbers::read_number(instruction, 0);
    let annul = numbers::read_number(instruction, 4);
    let rd = numbers::read_number(instruction, 8);
    let rs1 = numbers::read_number(instruction, 12);
    let mark = numbers::read_number(instruction, 16);
    let v = numbers::read_number(instruction, 20);
    PijorrelWritten::from(write_six(form, annul, rd, rs1, mark, v))
}

// The six numbers of a form without a second operand, and of one with it.
fn plain_six(form: u32, annul: u32, rd: u32, v: u32) -> [u32; 6]
    ensures { result ≡ form ∷ annul ∷ rd ∷ 0 ∷ 0 ∷ v ∷ [] }
{
    [form, annul, rd, 0, 0, v]
}

#[tactic(auto, unfolding(crate::specs::Forms::with_operand))]
fn six_with(form: u32, rd: u32, rs1: u32, x: Operand) -> [u32; 6]
    ensures { result ≡ with_operand form rd rs1 x }
{
    match x {
        Operand::Register(i) => [form, 0, rd, rs1, 0, (i % (1 << 32)) as u32],
        Operand::Constant(k) => [form, 0, rd, rs1, 1, k],
    }
}

#[tactic(auto, using(words::proofs::Conditions::one_bit), unfolding(crate::specs::Forms::six_of))]
fn six_of(i: Instruction) -> [u32; 6]
    ensures { result ≡ six_of i }
{
    match i {
        Instruction::Illegal => plain_six(0, 0, 0, 0),
        Instruction::Call(disp) => plain_six(64, 0, 0, disp),
        Instruction::Sethi(rd, imm) => plain_six(4, 0, rd, imm),
        Instruction::Bicc(cond, annul, disp) => plain_six(2, u32::from(annul), cond, disp),
        Instruction::Arithmetic(o, cc, rd, rs1, x) => six_with(
            128 + writer::arithmetic_op3(o, cc),
            rd,
            rs1,
            x,
        ),
        Instruction::Jmpl(rd, rs1, x) => six_with(184, rd, rs1, x),
        Instruction::Ticc(cond, rs1, x) => six_with(186, cond, rs1, x),
        Instruction::Load(o, rd, rs1, x) => six_with(192 + writer::load_op3(o), rd, rs1, x),
        Instruction::Store(w, rd, rs1, x) => six_with(192 + writer::store_op3(w), rd, rs1, x),
        Instruction::Shift(o, rd, rs1, x) => six_with(128 + writer::shift_op3(o), rd, rs1, x),
        Instruction::Rdy(rd) => plain_six(168, 0, rd, 0),
        Instruction::Wry(Sources { rs1, operand }) => six_with(176, 0, rs1, operand),
        Instruction::Window(o, rd, rs1, x) => six_with(128 + writer::window_op3(o), rd, rs1, x),
    }
}

// The six numbers of the instruction that a word reads as; six zeros where it is not known.
#[tactic(auto, unfolding(crate::specs::Forms::reads))]
pub fn pijorrel_read(word: u32, instruction: &mut [u8; 24])
    ensures { instruction.new ≡ reads word }
{
    let list = six_of(words::read_instruction(word));
    numbers::write_numbers(instruction, 0, &list);
}
