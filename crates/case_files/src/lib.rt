// Files of cases: numbers of four bytes, big-endian, and byte areas padded to a multiple of four.
#![tactic(auto)]

ghost use Rattle.std.specs.Prelude.{◌≡◌, ◌+◌, ◌*◌, ◌≤◌, ◌<◌, ◌^◌, ◌==◌, length, replicate, IfOk};
ghost use Rattle.std.specs.List.{list_all};
ghost use Rattle.model.specs.StateBytes.{old_size};
ghost use Rattle.case_files.specs.Files.{number_in, part_of, padded_to, copied, holding, one_entry, old_parts};

use states::OLD_STATE;
use std::fs::File;
use std::io;
use std::rt::Files;

// What is found of a case: where the next one starts, how many of its entries agree before one that does not, and whether all agrees,
// with what is no entry, as the data after the last.
#[derive(Clone, Copy)]
pub struct Found {
    pub next: usize,
    pub entries: u32,
    pub agrees: bool,
}

impl Found {
    // The verdict on a case of one entry.
    #[tactic(auto, using(crate::proofs::Verdicts::bit_of_lem), unfolding(crate::specs::Files::one_entry))]
    pub fn one(next: usize, agrees: bool) -> Found
        ensures { result ≡ one_entry next agrees }
    {
        Found {
            next,
            entries: u32::from(agrees),
            agrees,
        }
    }
}

// A case: the file that holds it and where it starts there, which a file that is cut off may have past its end, as a first case at 4.
#[derive(Clone, Copy)]
pub struct Case<'a> {
    pub bytes: &'a [u8],
    pub at: usize,
    ghost within: { at ≤ length bytes.now + 4 },
}

impl<'a> Case<'a> {
    // What the case starts with.
    pub fn tag(&self) -> u32
        ensures { result ≡ number_in self.now.bytes.now self.now.at }
    {
        number(self.bytes, self.at)
    }

    // One of the numbers that the case starts with, of which the tag is number 0.
    pub fn number(&self, i: usize) -> u32
        requires { i < 16 }
        ensures { result ≡ number_in self.now.bytes.now (self.now.at + 4 * i) }
    {
        number(self.bytes, self.at + 4 * i)
    }

    // Where the parts of a case of the old core, or of a trail, start: six numbers, a state, an image, data, so many bytes of answers, data.
    #[tactic(auto, unfolding(crate::specs::Files::old_parts))]
    pub fn locate(&self, answers: usize) -> Positions
        requires { answers < 2 ^ 40 }
        ensures { result ≡ old_parts self.now.bytes.now self.now.at answers }
    {
        let extent = self.number(1);
        let size = self.number(4);
        let image = self.at + 24 + OLD_STATE;
        let before = image + padded(extent);
        let known = before + padded(size);
        let after = known + answers;
        Positions {
            image,
            extent: extent as usize,
            before,
            size: size as usize,
            known,
            after,
            next: after + padded(size),
        }
    }

    // These parts.
    pub fn parts(&self, answers: usize) -> Parts<'a>
        requires { answers < 2 ^ 40 }
        ensures state { result.state.now ≡ part_of self.now.bytes.now (self.now.at + 24) old_size }
        ensures image { let p = old_parts self.now.bytes.now self.now.at answers in result.image.now ≡ part_of self.now.bytes.now p.image p.extent }
        ensures before { let p = old_parts self.now.bytes.now self.now.at answers in result.before.now ≡ part_of self.now.bytes.now p.before p.size }
        ensures known { result.known.now ≡ part_of self.now.bytes.now (old_parts self.now.bytes.now self.now.at answers).known answers }
        ensures after { let p = old_parts self.now.bytes.now self.now.at answers in result.after.now ≡ part_of self.now.bytes.now p.after p.size }
        ensures next { result.next ≡ (old_parts self.now.bytes.now self.now.at answers).next }
    {
        let p = self.locate(answers);
        Parts {
            state: part(self.bytes, self.at + 24, OLD_STATE),
            image: part(self.bytes, p.image, p.extent),
            before: part(self.bytes, p.before, p.size),
            known: part(self.bytes, p.known, answers),
            after: part(self.bytes, p.after, p.size),
            next: p.next,
        }
    }
}

// Where the parts of a case start, and how many bytes its image (extent) and its data (size) have.
#[derive(Clone, Copy)]
pub struct Positions {
    pub image: usize,
    pub extent: usize,
    pub before: usize,
    pub size: usize,
    pub known: usize,
    pub after: usize,
    pub next: usize,
}

// The parts of a case, each as much of it as the file has, and where the next case starts.
#[derive(Clone, Copy)]
pub struct Parts<'a> {
    pub state: &'a [u8],
    pub image: &'a [u8],
    pub before: &'a [u8],
    pub known: &'a [u8],
    pub after: &'a [u8],
    pub next: usize,
}

// Reads a file into a buffer, and answers how many bytes it has: which bytes they are, no contract can say. A path that is no text has no
// file. An error leaves the buffer as long as it is.
pub fn load<R: Files>(rt: &R, path: &[u8], buffer: &mut [u8]) -> io::Result<usize>
    ensures kept { length buffer.new ≡ length buffer.old }
    ensures fits { IfOk result (λ n. n ≤ length buffer.new) }
{
    let name = str::from_utf8(path).map_err(|_| io::ErrorKind::NotFound)?;
    let mut file = File::open(rt, name)?;
    input::read_full(&mut file, buffer)
}

// The number at a position, or 0 where the file is shorter. (A position beside the bytes, since `number_in` is asked past their end too.)
#[tactic(auto, unfolding(crate::specs::Files::number_in))]
pub fn number(bytes: &[u8], at: usize) -> u32
    ensures { result ≡ number_in bytes.now at }
{
    if at <= bytes.len() && 4 <= bytes.len() - at {
        return numbers::read_number(bytes, at);
    }
    0
}

// The bytes that an area takes in the file.
pub fn padded(n: u32) -> usize
    ensures { result ≡ padded_to n }
{
    (n as usize).next_multiple_of(4)
}

// As many bytes from a position on as are asked for, or fewer where the file is shorter.
pub fn part(bytes: &[u8], start: usize, n: usize) -> &[u8]
    ensures { result.now ≡ part_of bytes.now start n }
{
    let rest = &bytes[start.min(bytes.len())..];
    &rest[..n.min(rest.len())]
}

// An array of one byte alone. (A large array as a literal where it is lent, tried in place of this, leaves the bounds of its slices open.)
pub fn filled<const N: usize>(byte: u8) -> [u8; N]
    ensures { result ≡ replicate N byte }
{
    [byte; N]
}

// Copies as many bytes as both have.
pub fn copy(to: &mut [u8], from: &[u8])
    ensures { to.new ≡ copied to.old from.now }
{
    let n = to.len().min(from.len());
    to[..n].copy_from_slice(&from[..n]);
}

// Zeros, over which as many bytes are copied as there are.
pub fn over_zeros<const N: usize>(from: &[u8]) -> [u8; N]
    ensures { result ≡ copied (replicate N 0) from.now }
{
    let mut area = filled(0);
    copy(&mut area, from);
    area
}

// Whether all bytes of an area are one.
fn all_are(area: &[u8], byte: u8) -> bool
    ensures { result ≡ list_all (λ x. x == byte) area.now }
{
    area.iter().all(|x| *x == byte)
}

// Whether an area starts with known bytes and has one byte alone past them.
pub fn holds(area: &[u8], known: &[u8], past: u8) -> bool
    ensures { result ≡ holding area.now known.now past }
{
    match area.strip_prefix(known) {
        Some(rest) => all_are(rest, past),
        None => false,
    }
}
