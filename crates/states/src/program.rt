// Runs of either core, over what it runs.
ghost use Rattle.std.specs.Prelude.{◌≡◌, ℕ, List};
ghost use Rattle.machine.specs.Ends.{Next, answered, left, live, settle};
ghost use Rattle.model.specs.Run.{run, zeroed, data_of, beyond, lent};

use crate::Standing;
use machine::End;
use machine::registers::File;

// What a core runs: an image, or a translation. A step over it is the core's, with its state as the definitions have it.
pub trait Program {
    // a core's state but for its registers, which are lent beside it
    type Control: Copy;

    ghost Whole: { Type 0 };

    ghost whole: { List ℕ → Self.Control → List ℕ → Whole };

    ghost next: { Self → ℕ → Whole → Next Whole };

    fn step(
        &self,
        db: u32,
        regs: &mut File,
        c: Self::Control,
        area: &mut [u8],
    ) -> Result<Self::Control, End>
        ensures { answered (λ k. whole regs.new k area.new) (whole regs.new c area.new) result ≡ settle (whole regs.old c area.old) (next self.now db (whole regs.old c area.old)) };
}

// Does count steps, or fewer where the run ends.
fn steps<P: Program>(
    program: &P,
    db: u32,
    regs: &mut File,
    mut control: P::Control,
    area: &mut [u8],
    count: u16,
) -> Standing<P::Control>
    ensures { left (P.whole regs.new result.control area.new) result.end ≡ run (P.next program.now db) count (live (P.whole regs.old control area.old)) }
{
    for _ in 0..count {
        match program.step(db, regs, control, area) {
            Ok(next) => control = next,
            Err(e) => {
                return Standing {
                    control,
                    end: Some(e),
                };
            }
        }
    }
    Standing { control, end: None }
}

// count steps, or fewer where the run ends; none where it has ended. The file is lent, so that nothing copies it.
pub fn run<P: Program>(
    program: &P,
    db: u32,
    regs: &mut File,
    s: Standing<P::Control>,
    area: &mut [u8],
    count: u16,
) -> Standing<P::Control>
    ensures { lent (left (P.whole regs.new result.control (data_of area.new)) result.end) (beyond area.new) ≡ lent (run (P.next program.now db) count (left (P.whole (zeroed regs.old) s.control (data_of area.old)) s.end)) (beyond area.old) }
{
    regs[0] = 0;
    if s.end.is_some() {
        return s;
    }
    let n = effects::data_area::data_length(area.len());
    steps(program, db, regs, s.control, &mut area[..n], count)
}
