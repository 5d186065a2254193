// Loads and stores: the lent data area, big-endian, at a data base. Alignment is tested before fit.
ghost use Rattle.std.specs.Prelude.{◌≡◌, ℕ, ◌+◌, ◌*◌, ◌^◌, ◌≤◌, ◌<◌, min, List, length, Ok};
ghost use Rattle.numbers.specs.Choice.{pick};
ghost use Rattle.numbers.specs.Number.{minus, signed};
ghost use Rattle.machine.specs.Ends.{answered, done, settle};
ghost use Rattle.machine.specs.Registers.{register_of, address_of};
ghost use Rattle.effects.specs.DataArea.{size_of, value_at, put_value, width_of, sign_of, access, load_of, store_of};

use machine::End;
use machine::registers::{File, address, put, reg};
use words::{LoadOperation, Operand, Width};

// Of a lent area the first 65,536 bytes are data; bytes past that are no part of it.
pub fn data_length(n: usize) -> usize
    ensures { result ≡ min n 65536 }
{
    n.min(65536)
}

// The bytes that a width moves.
#[inline(always)]
#[tactic(auto, unfolding(crate::specs::DataArea::size_of))]
fn size(w: Width) -> usize
    ensures { (result ≡ size_of w) × (0 < result) × (result ≤ 4) }
{
    match w {
        Width::Byte => 1,
        Width::Half => 2,
        Width::Word => 4,
    }
}

#[inline(always)]
#[tactic(auto, unfolding(crate::specs::DataArea::value_at, crate::specs::DataArea::size_of))]
fn value_at(w: Width, area: &[u8], at: usize) -> u32
    requires { at + size_of w ≤ length area.now }
    ensures { (result ≡ value_at w area.now at) × (result < 2 ^ (8 * size_of w)) }
{
    match w {
        Width::Byte => u32::from(area[at]),
        Width::Half => u32::from(u16::from_be_bytes([area[at], area[at + 1]])),
        Width::Word => numbers::read_number(area, at),
    }
}

#[inline(always)]
#[tactic(auto, unfolding(crate::specs::DataArea::put_value, crate::specs::DataArea::size_of))]
fn put_value(w: Width, area: &mut [u8], at: usize, v: u32)
    requires { at + size_of w ≤ length area.old }
    ensures { area.new ≡ put_value w area.old at v }
{
    match w {
        Width::Byte => area[at] = (v % 256) as u8,
        Width::Half => {
            area[at] = (v / 256 % 256) as u8;
            area[at + 1] = (v % 256) as u8;
        }
        Width::Word => numbers::write_number(area, at, v),
    }
}

// A number of a width as a load gives it.
#[inline(always)]
#[tactic(auto, using(crate::proofs::Effects::whole_word), unfolding(crate::specs::DataArea::size_of))]
fn loaded(w: Width, sign: bool, v: u32) -> u32
    requires { v < 2 ^ (8 * size_of w) }
    ensures { result ≡ pick sign (signed (8 * size_of w) v) v }
{
    if !sign {
        return v;
    }
    match w {
        Width::Byte => numbers::signed(8, v),
        Width::Half => numbers::signed(16, v),
        Width::Word => v,
    }
}

// The position in an area of so many bytes at which an address stands.
#[inline(always)]
#[tactic(auto, unfolding(machine::specs::Ends::answered, machine::specs::Ends::settle, machine::specs::Ends::ending_of))]
fn position(w: Width, db: u32, t: u32, n: usize) -> Result<usize, End>
    ensures place { (at : ℕ) → result ≡ Ok at → (at ≡ minus t db) × (at + size_of w ≤ n) }
    ensures end { (area made s : List ℕ) → length area ≡ n → answered (λ at. made) s result ≡ settle s (access w db t area made) }
{
    if t % size(w) as u32 != 0 {
        return Err(End::Misaligned(t));
    }
    let at = numbers::subtract(t, db) as usize;
    if at + size(w) > n {
        return Err(End::Unfit(t));
    }
    Ok(at)
}

#[inline(always)]
#[tactic(auto, unfolding(machine::specs::Ends::answered, crate::specs::DataArea::load_of, crate::specs::DataArea::loaded_at))]
fn load_from(
    w: Width,
    sign: bool,
    db: u32,
    regs: &mut File,
    area: &[u8],
    rd: u32,
    rs1: u32,
    x: Operand,
) -> Result<(), End>
    ensures { done regs.new result ≡ settle regs.old (load_of w sign db area.now rd (address_of regs.old rs1 x) regs.old) }
{
    let at = position(w, db, address(regs, rs1, x), area.len())?;
    put(regs, rd, loaded(w, sign, value_at(w, area, at)));
    Ok(())
}

#[inline(always)]
#[tactic(auto, unfolding(machine::specs::Ends::answered, crate::specs::DataArea::store_of))]
fn store_to(
    w: Width,
    db: u32,
    regs: &File,
    area: &mut [u8],
    rd: u32,
    rs1: u32,
    x: Operand,
) -> Result<(), End>
    ensures { done area.new result ≡ settle area.old (store_of w db (register_of regs.now rd) (address_of regs.now rs1 x) area.old) }
{
    let at = position(w, db, address(regs, rs1, x), area.len())?;
    put_value(w, area, at, reg(regs, rd));
    Ok(())
}

// The width is matched before a register is read, and what each width does goes inline: so no width is told twice.
#[tactic(auto, unfolding(crate::specs::DataArea::width_of, crate::specs::DataArea::sign_of))]
pub fn load(
    o: LoadOperation,
    db: u32,
    regs: &mut File,
    area: &[u8],
    rd: u32,
    rs1: u32,
    x: Operand,
) -> Result<(), End>
    ensures { done regs.new result ≡ settle regs.old (load_of (width_of o) (sign_of o) db area.now rd (address_of regs.old rs1 x) regs.old) }
{
    match o {
        LoadOperation::Ld => load_from(Width::Word, false, db, regs, area, rd, rs1, x),
        LoadOperation::Ldub => load_from(Width::Byte, false, db, regs, area, rd, rs1, x),
        LoadOperation::Lduh => load_from(Width::Half, false, db, regs, area, rd, rs1, x),
        LoadOperation::Ldsb => load_from(Width::Byte, true, db, regs, area, rd, rs1, x),
        LoadOperation::Ldsh => load_from(Width::Half, true, db, regs, area, rd, rs1, x),
    }
}

pub fn store(
    w: Width,
    db: u32,
    regs: &File,
    area: &mut [u8],
    rd: u32,
    rs1: u32,
    x: Operand,
) -> Result<(), End>
    ensures { done area.new result ≡ settle area.old (store_of w db (register_of regs.now rd) (address_of regs.now rs1 x) area.old) }
{
    match w {
        Width::Byte => store_to(Width::Byte, db, regs, area, rd, rs1, x),
        Width::Half => store_to(Width::Half, db, regs, area, rd, rs1, x),
        Width::Word => store_to(Width::Word, db, regs, area, rd, rs1, x),
    }
}
