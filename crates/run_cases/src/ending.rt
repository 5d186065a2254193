// How a run of either core ended, beside what is known of it.
ghost use Rattle.std.specs.Prelude.{◌≡◌, ◌<◌, ◌^◌};
ghost use Rattle.machine.specs.Ends.{ending};
ghost use Rattle.run_cases.specs.Runs.{ended_in};

use case_files::number;
use machine::Ended;

// Whether a run ended in the known state, which has its end at a position, with the number beside it.
#[tactic(auto, using(case_files::proofs::Areas::is_same), unfolding(crate::specs::Runs::ended_in))]
pub(crate) fn ended_in(known: &[u8], at: usize, state: &[u8], r: Ended) -> bool
    requires { at < 2 ^ 32 }
    ensures { result ≡ ended_in known.now at (ending r.end r.number) state.now }
{
    (state == known) & (r.end == number(known, at)) & (r.number == number(known, at + 4))
}
