// Register windows: the current one lies in registers 8 to 31, the others in a ring of 128 numbers at the end of the file, in eights: the ins of
// a window, its locals, the ins of the next one. Eight numbers are read before they are written, and so go as one.
#![tactic(auto)]

ghost use Rattle.std.specs.Prelude.{◌≡◌, ℕ, ◌+◌, ◌*◌, ◌<◌, ◌≤◌, min, List, get_or};
ghost use Rattle.machine.specs.Ends.{answered, done, settle};
ghost use Rattle.machine.specs.Registers.{file_size, put_register, address_of};
ghost use Rattle.windows.specs.Windows.{nesting_of, place_of, put_each, laid, taken, cleared, come_in, turned, window_of};

use machine::End;
use machine::registers::{File, address, put};
use words::{Operand, WindowOperation};

#[tactic(auto, unfolding(crate::specs::Windows::nesting_of))]
fn nesting(regs: &File) -> u32
    ensures { result ≡ nesting_of regs.now }
{
    regs[33]
}

// Where the first of a window's outs, locals or ins stands: those of register 8, 16 or 24.
#[tactic(auto, using(crate::proofs::Ring::place_of_eight, crate::proofs::Ring::eight_fits))]
fn place(w: u32, eight: usize) -> usize
    requires { (1 ≤ eight) × (eight ≤ 3) }
    ensures { (result ≡ place_of w (8 * eight)) × (result + 8 ≤ file_size) }
{
    34 + (16 * (w as usize) + 8 * (3 - eight)) % 128
}

// Tried: read by first_chunk and written by copy_from_slice, they cost 70 instructions a step of the loop `calls` for 59, in the new core 59
// for 54; written through first_chunk_mut they cost none, but the check is told nothing of what such a write leaves.
#[tactic(auto, unfolding(crate::specs::Windows::put_each))]
fn copy_eight(regs: &mut File, from: usize, to: usize)
    requires { (from + 8 ≤ file_size) × (to + 8 ≤ file_size) }
    ensures { regs.new ≡ put_each (λ k. to + k) (λ k. get_or regs.old (from + k) 0) 8 regs.old }
{
    let a = regs[from];
    let b = regs[from + 1];
    let c = regs[from + 2];
    let d = regs[from + 3];
    let e = regs[from + 4];
    let f = regs[from + 5];
    let g = regs[from + 6];
    let h = regs[from + 7];
    regs[to] = a;
    regs[to + 1] = b;
    regs[to + 2] = c;
    regs[to + 3] = d;
    regs[to + 4] = e;
    regs[to + 5] = f;
    regs[to + 6] = g;
    regs[to + 7] = h;
}

#[tactic(auto, using(std::proofs::Common::arith, crate::proofs::Ring::eight_cleared))]
fn clear_eight(regs: &mut File, at: usize)
    requires { at + 8 ≤ file_size }
    ensures { regs.new ≡ put_each (λ k. at + k) (λ k. 0) 8 regs.old }
{
    regs[at..at + 8].fill(0);
}

// The current window at its places too: what is shown.
#[tactic(auto, using(crate::proofs::Ring::laid_eights))]
pub fn lay_down(regs: &mut File)
    ensures { regs.new ≡ laid regs.old }
{
    let w = nesting(regs);
    copy_eight(regs, 8, place(w, 1));
    copy_eight(regs, 16, place(w, 2));
    copy_eight(regs, 24, place(w, 3));
}

#[tactic(auto, using(crate::proofs::Ring::taken_eights))]
fn take_up(regs: &mut File, w: u32)
    ensures { regs.new ≡ taken w regs.old }
{
    copy_eight(regs, place(w, 1), 8);
    copy_eight(regs, place(w, 2), 16);
    copy_eight(regs, place(w, 3), 24);
}

#[tactic(auto, using(crate::proofs::Ring::cleared_eights))]
fn clear(regs: &mut File, w: u32)
    ensures { regs.new ≡ cleared w regs.old }
{
    clear_eight(regs, place(w, 1));
    clear_eight(regs, place(w, 2));
    clear_eight(regs, place(w, 3));
}

// A file that was handed in: its nesting at most 6, and 0 where it repeats the current window.
#[tactic(auto, unfolding(crate::specs::Windows::come_in, crate::specs::Windows::nested))]
pub fn come_in(regs: &mut File)
    ensures { regs.new ≡ come_in regs.old }
{
    let w = nesting(regs).min(6);
    regs[33] = w;
    clear(regs, w);
}

// Another window becomes the current one.
#[tactic(auto, unfolding(crate::specs::Windows::turned))]
fn turn(regs: &mut File, v: u32)
    ensures { regs.new ≡ turned v regs.old }
{
    lay_down(regs);
    take_up(regs, v);
    clear(regs, v);
    regs[33] = v;
}

// The nesting that a save or a restore leads to.
#[tactic(auto, unfolding(crate::specs::Windows::window_of, machine::specs::Ends::answered, machine::specs::Ends::settle, machine::specs::Ends::ending_of))]
fn next_nesting(o: WindowOperation, w: u32) -> Result<u32, End>
    ensures { (rs : List ℕ) (rd t : ℕ) → nesting_of rs ≡ w → answered (λ v. put_register (turned v rs) rd t) rs result ≡ settle rs (window_of o rd t rs) }
{
    match o {
        WindowOperation::Save if w < 6 => Ok(w + 1),
        WindowOperation::Save => Err(End::TooManySaves(w)),
        WindowOperation::Restore if 0 < w => Ok(w - 1),
        WindowOperation::Restore => Err(End::TooManyRestores(w)),
    }
}

// The sum is read in the old window, and written in the new.
#[tactic(auto, unfolding(machine::specs::Ends::answered))]
pub fn window(regs: &mut File, o: WindowOperation, rd: u32, rs1: u32, x: Operand) -> Result<(), End>
    ensures { done regs.new result ≡ settle regs.old (window_of o rd (address_of regs.old rs1 x) regs.old) }
{
    let t = address(regs, rs1, x);
    let v = next_nesting(o, nesting(regs))?;
    turn(regs, v);
    put(regs, rd, t);
    Ok(())
}
