// The register file: the 32 registers, and behind them Y, the nesting and the windows. Register 0 holds 0 at the start of a run, and each write
// leaves it so.
ghost use Rattle.std.specs.Prelude.{◌≡◌};
ghost use Rattle.machine.specs.Registers.{register_of, put_register, y_of, put_y, value_of, address_of};

use words::Operand;

// How many numbers the file has, and the file: registers 0 to 31, Y, the nesting, eight times sixteen numbers of windows. It stays a plain array,
// read by functions and not by methods: in a struct each definition of specs/ that takes its list would take `.numbers` of it, and be no plainer.
pub const FILE: usize = 162;

pub type File = [u32; FILE];

#[tactic(auto, unfolding(crate::specs::Registers::register_of))]
fn reg_at(regs: &File, i: usize) -> u32
    ensures { result ≡ register_of regs.now i }
{
    regs[i % 32]
}

pub fn reg(regs: &File, i: u32) -> u32
    ensures { result ≡ register_of regs.now i }
{
    reg_at(regs, i as usize)
}

#[tactic(auto, unfolding(crate::specs::Registers::put_register))]
pub fn put(regs: &mut File, i: u32, v: u32)
    ensures { regs.new ≡ put_register regs.old i v }
{
    let k = (i % 32) as usize;
    regs[k] = v;
    regs[0] = 0;
}

#[tactic(auto, unfolding(crate::specs::Registers::y_of))]
pub fn y(regs: &File) -> u32
    ensures { result ≡ y_of regs.now }
{
    regs[32]
}

#[tactic(auto, unfolding(crate::specs::Registers::put_y))]
pub fn put_y(regs: &mut File, v: u32)
    ensures { regs.new ≡ put_y regs.old v }
{
    regs[32] = v;
}

#[tactic(auto, unfolding(crate::specs::Registers::value_of))]
pub fn value(regs: &File, x: Operand) -> u32
    ensures { result ≡ value_of regs.now x }
{
    match x {
        Operand::Register(i) => reg_at(regs, i),
        Operand::Constant(k) => k,
    }
}

// The sum of a register and a second operand: a data address, or where a jmpl goes.
#[tactic(auto, unfolding(crate::specs::Registers::address_of))]
pub fn address(regs: &File, rs1: u32, x: Operand) -> u32
    ensures { result ≡ address_of regs.now rs1 x }
{
    numbers::add(reg(regs, rs1), value(regs, x))
}
