// A case of the listing library: the bytes that the listing program read, and all that it writes.
ghost use Rattle.std.specs.Prelude.{◌≡◌};
ghost use Rattle.case_files.specs.Files.{holding};
ghost use Rattle.answer_cases.specs.Listings.{listed_found};

use case_files::{Case, Found, holds, padded, part};

// What a case starts with.
const TAG: u32 = 0x4C495354;

// Whether a buffer starts with a known text, and holds what it held before past it.
fn shows(out: &[u8; 131072], text: &[u8]) -> bool
    ensures { result ≡ holding out.now text.now 165 }
{
    holds(out, text, 0xA5)
}

// Lists a case, in a buffer that held other bytes and keeps them past the listing. It has one entry.
pub fn check(case: &Case) -> Found
    ensures { result ≡ listed_found case.now.bytes.now case.now.at }
{
    let extent = case.number(1);
    let size = case.number(2);
    let text = case.at + 12 + padded(extent);
    let known = part(case.bytes, text, size as usize);
    let mut out = [0xA5u8; 131072];
    let n = listing::list(part(case.bytes, case.at + 12, extent as usize), &mut out);
    let agrees = (case.tag() == TAG) & (n == size as usize) & shows(&out, known);
    Found::one(text + padded(size), agrees)
}
