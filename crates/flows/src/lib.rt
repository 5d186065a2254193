// What a word does to control, without its operands.
#![tactic(auto)]

ghost use Rattle.std.specs.Prelude.{◌≡◌, false, ℕ};
ghost use Rattle.numbers.specs.Choice.{find};
ghost use Rattle.words.specs.declared.Operand.{Operand};
ghost use Rattle.words.specs.declared.Sources.{Sources};
ghost use Rattle.words.specs.declared.Instruction.TheVariants.{Ticc, Rdy, Wry};
ghost use Rattle.words.specs.Reader.{bits, register_strays, rdy_strays, wry_strays, strictly, format0_of, none2, other_rows, format2_of, format3_of, instruction_of};
ghost use Rattle.words.specs.Flow.{operand_strays, flow_of, is_known};

use words::Flow;

#[tactic(auto, unfolding(words::specs::Flow::flow_of, words::specs::Reader::format0_of))]
fn flow0(word: u32) -> Flow
    ensures { result ≡ flow_of (format0_of word) }
{
    let k = words::op2(word);
    match k {
        2 => Flow::Branches(
            words::cond(word),
            words::annul_bit(word),
            words::disp22(word),
        ),
        4 => Flow::Continues,
        _ => Flow::Faults,
    }
}

// Where a register's number or a shift's constant stands, bits 12 to 5 are unused; most words have them clear.
fn operand_strays(op3: u32, word: u32) -> bool
    ensures { result ≡ operand_strays op3 word }
{
    if words::high8(word) == 0 {
        return false;
    }
    if words::constant_bit(word) {
        return numbers::subtract(op3, 37) < 3;
    }
    true
}

#[tactic(auto, unfolding(words::specs::Flow::flow_of, words::specs::Reader::strictly, words::specs::Reader::unused_set))]
fn trap_flow(cond: u32, word: u32) -> Flow
    requires { register_strays word ≡ false }
    ensures { (rs1 : ℕ) (x : Operand) → result ≡ flow_of (strictly word (Ticc cond rs1 x)) }
{
    if words::trap_strays(word) {
        return Flow::Faults;
    }
    if cond == 8 {
        return Flow::Traps;
    }
    Flow::Continues
}

#[tactic(auto, unfolding(words::specs::Flow::flow_of, words::specs::Reader::strictly, words::specs::Reader::unused_set))]
fn rdy_flow(word: u32) -> Flow
    ensures { (rd : ℕ) → result ≡ flow_of (strictly word (Rdy rd)) }
{
    if words::rdy_strays(word) {
        return Flow::Faults;
    }
    Flow::Continues
}

fn wry_flow(word: u32) -> Flow
    requires { register_strays word ≡ false }
    ensures { (s : Sources) → result ≡ flow_of (strictly word (Wry s)) }
{
    if words::rd(word) != 0 {
        return Flow::Faults;
    }
    Flow::Continues
}

// An arm for each op3, of which the compiler makes a table. Ranges for the arms that say the same were tried: they prove, but become compares in a row,
// and the translator took 5 % more instructions a word, the writer 8 %.
fn other_flow2(op3: u32, cond: u32, rd: u32, word: u32) -> Flow
    requires { (operand_strays op3 word ≡ false) × (op3 ≡ 40 → rdy_strays word ≡ false) × (op3 ≡ 48 → wry_strays word ≡ false) }
    ensures { (rs1 : ℕ) (x : Operand) → result ≡ flow_of (strictly word (find other_rows none2 op3 cond rd rs1 x)) }
{
    match op3 {
        37 => Flow::Continues,
        38 => Flow::Continues,
        39 => Flow::Continues,
        40 => Flow::Continues,
        48 => Flow::Continues,
        56 => Flow::Jumps(rd),
        58 => trap_flow(cond, word),
        60 => Flow::Continues,
        61 => Flow::Continues,
        _ => Flow::Faults,
    }
}

fn flow2(op3: u32, cond: u32, rd: u32, word: u32) -> Flow
    requires { (operand_strays op3 word ≡ false) × (op3 ≡ 40 → rdy_strays word ≡ false) × (op3 ≡ 48 → wry_strays word ≡ false) }
    ensures { (rs1 : ℕ) (x : Operand) → result ≡ flow_of (strictly word (format2_of op3 cond rd rs1 x)) }
{
    match op3 {
        0 => Flow::Continues,
        1 => Flow::Continues,
        2 => Flow::Continues,
        3 => Flow::Continues,
        4 => Flow::Continues,
        5 => Flow::Continues,
        6 => Flow::Continues,
        7 => Flow::Continues,
        8 => Flow::Continues,
        10 => Flow::Continues,
        11 => Flow::Continues,
        12 => Flow::Continues,
        16 => Flow::Continues,
        17 => Flow::Continues,
        18 => Flow::Continues,
        19 => Flow::Continues,
        20 => Flow::Continues,
        21 => Flow::Continues,
        22 => Flow::Continues,
        23 => Flow::Continues,
        24 => Flow::Continues,
        26 => Flow::Continues,
        27 => Flow::Continues,
        28 => Flow::Continues,
        _ => other_flow2(op3, cond, rd, word),
    }
}

// Rdy and wry, whose unused bits are their own, are told before the others: in the arms they made `read_flow` too large to go inline.
#[tactic(auto, using(words::proofs::Strict::beside_none), unfolding(words::specs::Reader::format2_of))]
fn flow2_or_y(op3: u32, word: u32) -> Flow
    requires { operand_strays op3 word ≡ false }
    ensures { (rs1 : ℕ) (x : Operand) → result ≡ flow_of (strictly word (format2_of op3 (bits word 25 4) (bits word 25 5) rs1 x)) }
{
    if op3 == 40 {
        return rdy_flow(word);
    }
    if op3 == 48 {
        return wry_flow(word);
    }
    flow2(op3, words::cond(word), words::rd(word), word)
}

#[tactic(auto, unfolding(words::specs::Flow::flow_of, words::specs::Reader::format3_of))]
fn flow3(op3: u32) -> Flow
    ensures { (rd rs1 : ℕ) (x : Operand) → result ≡ flow_of (format3_of op3 rd rs1 x) }
{
    match op3 {
        0 => Flow::Continues,
        1 => Flow::Continues,
        2 => Flow::Continues,
        4 => Flow::Continues,
        5 => Flow::Continues,
        6 => Flow::Continues,
        9 => Flow::Continues,
        10 => Flow::Continues,
        _ => Flow::Faults,
    }
}

// What a word does to control. The translator asks no more of a word, and an operand that is not read costs nothing.
pub fn read_flow(word: u32) -> Flow
    ensures { result ≡ flow_of (instruction_of word) }
{
    let k = words::op(word);
    if k < 2 {
        if k == 0 {
            return flow0(word);
        }
        return Flow::Calls(words::disp30(word));
    }
    if operand_strays(words::op3(word), word) {
        return Flow::Faults;
    }
    if k == 2 {
        return flow2_or_y(words::op3(word), word);
    }
    flow3(words::op3(word))
}

// Whether a flow is that of a known word.
#[tactic(auto, unfolding(words::specs::Flow::is_known))]
fn is_known(f: Flow) -> bool
    ensures { result ≡ is_known f }
{
    match f {
        Flow::Faults => false,
        _ => true,
    }
}

// Whether a word of format 2 or 3 with this op3 is known, where no unused bit is set.
#[tactic(auto, using(words::proofs::Strict::nothing_set, words::proofs::Strict::nothing_strays, words::proofs::Strict::nothing_strays_y))]
pub fn is_form2(op3: u32) -> bool
    ensures { (rs1 : ℕ) (x : Operand) → result ≡ is_known (flow_of (format2_of op3 0 0 rs1 x)) }
{
    is_known(flow2(op3, 0, 0, 0))
}

pub fn is_form3(op3: u32) -> bool
    ensures { (rd rs1 : ℕ) (x : Operand) → result ≡ is_known (flow_of (format3_of op3 rd rs1 x)) }
{
    is_known(flow3(op3))
}
