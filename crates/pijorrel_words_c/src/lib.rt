// What C calls of the reader and the writer of words, under the names of include/pijorrel.h. Each export is pijorrel_words' function.
#![tactic(auto)]

ghost use Rattle.std.specs.Prelude.{◌≡◌, [], ◌∷◌};
ghost use Rattle.pijorrel_words.specs.Forms.{writes, reads};

use pijorrel_words::PijorrelWritten;

// The word of an instruction, or a refusal.
#[unsafe(no_mangle)]
pub extern "C" fn pijorrel_write(instruction: &[u8; 24]) -> PijorrelWritten
    ensures { result.number ∷ result.value ∷ [] ≡ writes instruction.now }
{
    pijorrel_words::pijorrel_write(instruction)
}

// The six numbers of the instruction that a word reads as; six zeros where it is not known.
#[unsafe(no_mangle)]
pub extern "C" fn pijorrel_read(word: u32, instruction: &mut [u8; 24])
    ensures { instruction.new ≡ reads word }
{
    pijorrel_words::pijorrel_read(word, instruction);
}
