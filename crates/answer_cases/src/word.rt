// A case of the words: a word and the six numbers that it reads as, or six numbers of any instruction; then what writing the six answers.
ghost use Rattle.std.specs.Prelude.{◌≡◌};
ghost use Rattle.case_files.specs.Files.{same_bytes};
ghost use Rattle.answer_cases.specs.Words.{answers_so, read_found, written_found, word_found};

use case_files::{Case, Found, number, over_zeros, part};

// What a case of either kind starts with.
const WORD: u32 = 0x574F5244;

const INSTRUCTION: u32 = 0x494E5354;

// Whether six numbers are the known ones.
#[tactic(auto, using(case_files::proofs::Areas::is_same))]
fn shows(known: &[u8], six: &[u8]) -> bool
    ensures { result ≡ same_bytes six.now known.now }
{
    six == known
}

// Whether writing six numbers has the known answer.
#[tactic(auto, unfolding(crate::specs::Words::answers_so))]
fn answers(known: &[u8], six: &[u8; 24]) -> bool
    ensures { result ≡ answers_so known.now six.now }
{
    let r = pijorrel_words::pijorrel_write(six);
    (r.number == number(known, 0)) & (r.value == number(known, 4))
}

// Reads the word of a case, into a buffer that held other bytes, and writes what is then there.
#[tactic(auto, unfolding(crate::specs::Words::read_found))]
fn check_read(case: &Case) -> Found
    ensures { result ≡ read_found case.now.bytes.now case.now.at }
{
    let mut six = [0xA5u8; 24];
    pijorrel_words::pijorrel_read(case.number(1), &mut six);
    let known = part(case.bytes, case.at + 8, 24);
    let answer = part(case.bytes, case.at + 32, 8);
    Found::one(case.at + 40, shows(known, &six) & answers(answer, &six))
}

// Writes the six numbers of a case.
#[tactic(auto, unfolding(crate::specs::Words::written_found))]
fn check_written(case: &Case) -> Found
    ensures { result ≡ written_found case.now.bytes.now case.now.at }
{
    let six: [u8; 24] = over_zeros(part(case.bytes, case.at + 4, 24));
    let answer = part(case.bytes, case.at + 28, 8);
    let agrees = (case.tag() == INSTRUCTION) & answers(answer, &six);
    Found::one(case.at + 36, agrees)
}

// Tries a case of either kind. It has one entry.
#[tactic(auto, unfolding(crate::specs::Words::word_found))]
pub fn check(case: &Case) -> Found
    ensures { result ≡ word_found case.now.bytes.now case.now.at }
{
    if case.tag() == WORD {
        return check_read(case);
    }
    check_written(case)
}
