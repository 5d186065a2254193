// Arithmetic, logic, products and shifts, with the flags that their flag forms set.
#![tactic(auto)]

ghost use Rattle.std.specs.Prelude.{◌≡◌, ◌-◌, ◌*◌, ◌/◌, ◌%◌, ◌&&◌, eqb};
ghost use Rattle.numbers.specs.Choice.{pick};
ghost use Rattle.numbers.specs.Number.{plus, minus};
ghost use Rattle.words.specs.Conditions.{nzvc_of};
ghost use Rattle.machine.specs.Registers.{register_of, put_register, value_of};
ghost use Rattle.arithmetic.specs.Arithmetic.{top, sum_overflow, sum_carry, difference_overflow, difference_carry, shifted_left, shifted_right, shifted_signed, shift_of, carry_of, sum_of, difference_of, logic_of, product_of, written, after, arithmetic_of};

use machine::Flags;
use machine::registers::{File, put, put_y, reg, value};
use words::{Operand, Operation, ShiftOperation};

#[tactic(auto, unfolding(crate::specs::Arithmetic::top))]
fn top_bit(x: u32) -> bool
    ensures { result ≡ top x }
{
    2147483648 <= x
}

fn complement(x: u32) -> u32
    ensures { result ≡ 4294967295 - x }
{
    4294967295 - x
}

// V8's three shifts, a line each, as `shift_of` has a clause for each.
#[tactic(auto, unfolding(crate::specs::Arithmetic::shifted_left))]
fn sll(a: u32, b: u32) -> u32
    ensures { result ≡ shifted_left a b }
{
    a << (b % 32)
}

#[tactic(auto, unfolding(crate::specs::Arithmetic::shifted_right))]
fn srl(a: u32, b: u32) -> u32
    ensures { result ≡ shifted_right a b }
{
    a >> (b % 32)
}

// The sign comes in from the left.
#[tactic(auto, unfolding(crate::specs::Arithmetic::shifted_signed))]
fn sra(a: u32, b: u32) -> u32
    ensures { result ≡ shifted_signed a b }
{
    if top_bit(a) {
        complement(srl(complement(a), b))
    } else {
        srl(a, b)
    }
}

// V8's V and C, in its steps and order, from r[rs1]<31>, operand2<31> and result<31>: of a sum, then of a difference. Four functions, since V8
// writes four lines and `FlagsExact` speaks of each.
fn sum_overflow(rs1: bool, operand2: bool, res: bool) -> bool
    ensures { result ≡ sum_overflow rs1 operand2 res }
{
    (rs1 & operand2 & !res) | (!rs1 & !operand2 & res)
}

fn sum_carry(rs1: bool, operand2: bool, res: bool) -> bool
    ensures { result ≡ sum_carry rs1 operand2 res }
{
    (rs1 & operand2) | (!res & (rs1 | operand2))
}

fn difference_overflow(rs1: bool, operand2: bool, res: bool) -> bool
    ensures { result ≡ difference_overflow rs1 operand2 res }
{
    (rs1 & !operand2 & !res) | (!rs1 & operand2 & res)
}

fn difference_carry(rs1: bool, operand2: bool, res: bool) -> bool
    ensures { result ≡ difference_carry rs1 operand2 res }
{
    (!rs1 & operand2) | (res & (!rs1 | operand2))
}

// The flags from a result, V and C.
#[tactic(auto, unfolding(words::specs::Conditions::nzvc_of, words::specs::Conditions::bit_of))]
fn flags_with(r: u32, v: bool, c: bool) -> Flags
    ensures { result.nzvc ≡ nzvc_of (top r) (eqb r 0) v c }
{
    Flags {
        nzvc: u32::from(top_bit(r)) * 8 + u32::from(r == 0) * 4 + u32::from(v) * 2 + u32::from(c),
    }
}

// The flags of a sum, or of a difference: V and C from the three top bits.
#[inline(always)]
fn carried_flags(less: bool, a: u32, b: u32, r: u32) -> Flags
    ensures { result.nzvc ≡ nzvc_of (top r) (eqb r 0) (pick less (difference_overflow (top a) (top b) (top r)) (sum_overflow (top a) (top b) (top r))) (pick less (difference_carry (top a) (top b) (top r)) (sum_carry (top a) (top b) (top r))) }
{
    let rs1 = top_bit(a);
    let operand2 = top_bit(b);
    let result = top_bit(r);
    if less {
        flags_with(
            r,
            difference_overflow(rs1, operand2, result),
            difference_carry(rs1, operand2, result),
        )
    } else {
        flags_with(
            r,
            sum_overflow(rs1, operand2, result),
            sum_carry(rs1, operand2, result),
        )
    }
}

// C, as a number.
#[tactic(auto, unfolding(crate::specs::Arithmetic::carry_of))]
fn carry(f: Flags) -> u32
    ensures { result ≡ carry_of f.nzvc }
{
    f.nzvc & 1
}

// A sum, or a difference, with what comes in from C.
#[inline(always)]
fn total(less: bool, a: u32, b: u32, k: u32) -> u32
    ensures { result ≡ pick less (minus (minus a b) k) (plus (plus a b) k) }
{
    if less {
        numbers::subtract(numbers::subtract(a, b), k)
    } else {
        numbers::add(numbers::add(a, b), k)
    }
}

// add and addx, sub and subx: k is what comes in from C.
#[inline(always)]
#[tactic(auto, unfolding(crate::specs::Arithmetic::sum_of, crate::specs::Arithmetic::difference_of))]
fn total_word(
    less: bool,
    f: Flags,
    regs: &mut File,
    k: u32,
    cc: bool,
    rd: u32,
    rs1: u32,
    x: Operand,
) -> Flags
    ensures { after result.nzvc regs.new ≡ written f.nzvc regs.old cc rd (pick less (difference_of (register_of regs.old rs1) (value_of regs.old x) k) (sum_of (register_of regs.old rs1) (value_of regs.old x) k)) }
{
    let a = reg(regs, rs1);
    let b = value(regs, x);
    let v = total(less, a, b, k);
    put(regs, rd, v);
    if cc { carried_flags(less, a, b, v) } else { f }
}

// A result that clears V and C where it sets the flags.
#[tactic(auto, unfolding(crate::specs::Arithmetic::logic_of, words::specs::Conditions::nzvc_of, words::specs::Conditions::bit_of))]
fn logic_word(f: Flags, regs: &mut File, cc: bool, rd: u32, v: u32) -> Flags
    ensures { after result.nzvc regs.new ≡ written f.nzvc regs.old cc rd (logic_of v) }
{
    put(regs, rd, v);
    if cc { flags_with(v, false, false) } else { f }
}

// What a factor a takes off the product's high word: read as signed with bit 31 set it counts 2^32 less, so the other factor.
fn off(sign: bool, a: u32, b: u32) -> u32
    ensures { result ≡ pick (sign && top a) b 0 }
{
    if sign && top_bit(a) { b } else { 0 }
}

#[tactic(auto, using(crate::proofs::Products::product_lt))]
fn product(a: u32, b: u32) -> u64
    ensures { result ≡ a * b }
{
    a as u64 * b as u64
}

fn low_word(p: u64) -> u32
    ensures { result ≡ p % 4294967296 }
{
    (p % 4294967296) as u32
}

fn high_word(p: u64) -> u32
    ensures { result ≡ p / 4294967296 }
{
    (p >> 32) as u32
}

// umul and smul: the high 32 bits go to Y, the low to rd.
#[tactic(auto, using(crate::proofs::Products::high_of, crate::proofs::Products::low_of), unfolding(crate::specs::Arithmetic::logic_of, crate::specs::Arithmetic::product_of))]
fn multiply_word(
    f: Flags,
    regs: &mut File,
    sign: bool,
    cc: bool,
    rd: u32,
    rs1: u32,
    x: Operand,
) -> Flags
    ensures { after result.nzvc regs.new ≡ written f.nzvc regs.old cc rd (product_of sign (register_of regs.old rs1) (value_of regs.old x)) }
{
    let a = reg(regs, rs1);
    let b = value(regs, x);
    let p = product(a, b);
    let h = numbers::subtract(
        numbers::subtract(high_word(p), off(sign, a, b)),
        off(sign, b, a),
    );
    put_y(regs, h);
    logic_word(f, regs, cc, rd, low_word(p))
}

// The operation is matched before a register is read, so that the compiler joins this match with the reader's.
#[tactic(auto, unfolding(crate::specs::Arithmetic::outcome_of, crate::specs::Arithmetic::arithmetic_of))]
pub fn operate(
    f: Flags,
    regs: &mut File,
    o: Operation,
    cc: bool,
    rd: u32,
    rs1: u32,
    x: Operand,
) -> Flags
    ensures { after result.nzvc regs.new ≡ arithmetic_of f.nzvc regs.old o cc rd rs1 x }
{
    match o {
        Operation::Add => total_word(false, f, regs, 0, cc, rd, rs1, x),
        Operation::And => logic_word(f, regs, cc, rd, reg(regs, rs1) & value(regs, x)),
        Operation::Or => logic_word(f, regs, cc, rd, reg(regs, rs1) | value(regs, x)),
        Operation::Xor => logic_word(f, regs, cc, rd, reg(regs, rs1) ^ value(regs, x)),
        Operation::Sub => total_word(true, f, regs, 0, cc, rd, rs1, x),
        Operation::Andn => logic_word(f, regs, cc, rd, reg(regs, rs1) & complement(value(regs, x))),
        Operation::Orn => logic_word(f, regs, cc, rd, reg(regs, rs1) | complement(value(regs, x))),
        Operation::Xnor => logic_word(f, regs, cc, rd, reg(regs, rs1) ^ complement(value(regs, x))),
        Operation::Addx => total_word(false, f, regs, carry(f), cc, rd, rs1, x),
        Operation::Subx => total_word(true, f, regs, carry(f), cc, rd, rs1, x),
        Operation::Umul => multiply_word(f, regs, false, cc, rd, rs1, x),
        Operation::Smul => multiply_word(f, regs, true, cc, rd, rs1, x),
    }
}

// A shift sets no flag.
#[tactic(auto, unfolding(crate::specs::Arithmetic::shift_of))]
pub fn shift(regs: &mut File, o: ShiftOperation, rd: u32, rs1: u32, x: Operand)
    ensures { regs.new ≡ put_register regs.old rd (shift_of o (register_of regs.old rs1) (value_of regs.old x)) }
{
    match o {
        ShiftOperation::Sll => put(regs, rd, sll(reg(regs, rs1), value(regs, x))),
        ShiftOperation::Srl => put(regs, rd, srl(reg(regs, rs1), value(regs, x))),
        ShiftOperation::Sra => put(regs, rd, sra(reg(regs, rs1), value(regs, x))),
    }
}
