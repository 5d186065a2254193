// What both cores share: the register file, flags, the two counters, and how a run ended.
#![tactic(auto)]

ghost use Rattle.std.specs.Prelude.{◌≡◌};
ghost use Rattle.numbers.specs.Number.{plus};
ghost use Rattle.machine.specs.Ends.{ending, standing_of, ending_from};

pub mod registers;

// An address of the source program. It is never read as a record number.
#[derive(Clone, Copy)]
pub struct SourcePc(pub u32);

impl SourcePc {
    // The address so many bytes further.
    pub fn further(self, bytes: u32) -> SourcePc
        ensures { result.0 ≡ plus self.0 bytes }
    {
        SourcePc(numbers::add(self.0, bytes))
    }
}

// A record's number. It is never read as a source address.
#[derive(Clone, Copy)]
pub struct TargetPc(pub u32);

// The flags N, Z, V and C as one number, 8N + 4Z + 2V + C, as C has them in a state.
#[derive(Clone, Copy)]
pub struct Flags {
    pub nzvc: u32,
}

impl Flags {
    pub const CLEAR: Flags = Flags { nzvc: 0 };
}

// How a run ended, with what stands beside it: a counter, or a number that need not be one. A run that is still going has none.
#[derive(Clone, Copy)]
pub enum End {
    // (rs1 + operand) modulo 128
    TrapTaken(u32),
    Outside(SourcePc),
    IllegalWord(SourcePc),
    // an address of a word or of data, or where a jmpl leads
    Misaligned(u32),
    Unfit(u32),
    // ends of the new core alone
    NoPlace(SourcePc),
    BadRecord(TargetPc),
    // the nesting
    TooManySaves(u32),
    TooManyRestores(u32),
}

// An end's number, and the number beside it; both 0 of a run that is still going. So C has them.
#[repr(C)]
#[derive(Clone, Copy)]
pub struct Ended {
    pub end: u32,
    pub number: u32,
}

impl From<Option<End>> for Ended {
    ghost from_gives = { λ e r. ending r.end r.number ≡ standing_of e };

    #[tactic(auto, unfolding(crate::specs::Ends::standing_of, crate::specs::Ends::ending_of))]
    fn from(e: Option<End>) -> Ended {
        let (end, number) = match e {
            None => (0, 0),
            Some(End::TrapTaken(v)) => (1, v),
            Some(End::Outside(p)) => (2, p.0),
            Some(End::IllegalWord(p)) => (3, p.0),
            Some(End::Misaligned(v)) => (4, v),
            Some(End::Unfit(v)) => (5, v),
            Some(End::NoPlace(p)) => (6, p.0),
            Some(End::BadRecord(r)) => (7, r.0),
            Some(End::TooManySaves(w)) => (8, w),
            Some(End::TooManyRestores(w)) => (9, w),
        };
        Ended { end, number }
    }
}

// The end of two numbers in a state's bytes: any number but 1 to 9 counts as still going.
impl From<Ended> for Option<End> {
    ghost from_gives = { λ r e. standing_of e ≡ ending_from r.end r.number };

    #[tactic(auto, using(crate::proofs::Ends::no_end), unfolding(crate::specs::Ends::standing_of, crate::specs::Ends::ending_of, crate::specs::Ends::ending_from))]
    fn from(r: Ended) -> Option<End> {
        let v = r.number;
        match r.end {
            1 => Some(End::TrapTaken(v)),
            2 => Some(End::Outside(SourcePc(v))),
            3 => Some(End::IllegalWord(SourcePc(v))),
            4 => Some(End::Misaligned(v)),
            5 => Some(End::Unfit(v)),
            6 => Some(End::NoPlace(SourcePc(v))),
            7 => Some(End::BadRecord(TargetPc(v))),
            8 => Some(End::TooManySaves(v)),
            9 => Some(End::TooManyRestores(v)),
            _ => None,
        }
    }
}
