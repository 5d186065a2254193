// Runs the library on files of cases with known answers, and says how many agree and which do not.
#![tactic(auto)]

ghost use Rattle.std.specs.Prelude.{◌≡◌, ◌+◌, ◌≤◌};
ghost use Rattle.case_files.specs.Files.{number_in};
ghost use Rattle.cases.specs.Kinds.{size_at, ran, found};

use case_files::{Case, Found, filled};
use std::io;
use std::rt::Files;

// The most bytes of a file that are read.
const LARGEST: usize = 1048576;

// The most bytes of a case's data, which may be more than the 65,536 that exist.
const AREA: usize = 65552;

// What a core's cases are.
#[derive(Clone, Copy)]
enum Core {
    Old,
    New,
    Trail,
}

// What the cases of a file are. An enum and no closure for each file: by its variants the definition `found` says what `check` finds.
#[derive(Clone, Copy)]
enum Kind {
    Runs(Core),
    Translation,
    Listing,
    Words,
}

// How many bytes of data a core's case has.
#[tactic(auto, unfolding(crate::specs::Kinds::size_at))]
fn data_size(core: Core, case: &Case) -> usize
    ensures { result ≡ number_in case.now.bytes.now (case.now.at + size_at core) }
{
    match core {
        Core::Old => case.number(4) as usize,
        Core::New => case.number(6) as usize,
        Core::Trail => case.number(4) as usize,
    }
}

// Runs a core's case, over zeros. A case with data that do not fit the area differs.
fn check_run(core: Core, case: &Case) -> Found
    ensures { result ≡ ran core case.now.bytes.now case.now.at }
{
    let mut zeros: [u8; AREA] = filled(0);
    let n = data_size(core, case).min(AREA);
    let area = &mut zeros[..n];
    match core {
        Core::Old => run_cases::old::check(case, area),
        Core::New => run_cases::records::check(case, area),
        Core::Trail => run_cases::trail::check(case, area),
    }
}

// Runs a case.
#[tactic(auto, unfolding(crate::specs::Kinds::found))]
fn check(kind: Kind, case: &Case) -> Found
    ensures { result ≡ found kind case.now.bytes.now case.now.at }
{
    match kind {
        Kind::Runs(core) => check_run(core, case),
        Kind::Translation => answer_cases::translation::check(case),
        Kind::Listing => answer_cases::listed::check(case),
        Kind::Words => answer_cases::word::check(case),
    }
}

// Runs the cases of a file, reports those that differ or are cut off, and answers how many entries agree.
fn agreeing(rt: &impl Print, kind: Kind, name: &str, bytes: &[u8]) -> io::Result<u64> {
    let count = case_files::number(bytes, 0);
    let mut entries: u64 = 0;
    let mut at: usize = 4;
    for k in 0..count {
        let found = check(kind, &Case { bytes, at });
        at = found.next;
        if bytes.len() < at {
            println!(rt; "{name}: case {k} is cut off")?;
            return Ok(entries);
        }
        let agreed = found.entries;
        if !found.agrees {
            println!(rt; "{name}: case {k} differs at entry {agreed}")?;
        }
        entries += u64::from(agreed);
    }
    Ok(entries)
}

// What is said between how many entries of a file agree and how many cases it has, and after them. A case of a core or of a call has one entry.
fn words(kind: Kind) -> (&'static str, &'static str) {
    match kind {
        Kind::Runs(Core::Trail) => (" entries of ", " programs agree"),
        _ => (" of ", " agree"),
    }
}

// Runs a file, and says how many entries of how many cases agree.
fn run<R: Files + Print>(
    rt: &R,
    kind: Kind,
    name: &str,
    buffer: &mut [u8; LARGEST],
) -> io::Result<()> {
    let n = case_files::load(rt, name.as_bytes(), buffer)?;
    let bytes = case_files::part(buffer, 0, n);
    let entries = agreeing(rt, kind, name, bytes)?;
    let count = case_files::number(bytes, 0);
    let (between, after) = words(kind);
    println!(rt; "{name}: {entries}{between}{count}{after}")
}

fn main(rt: HostRuntime) -> io::Result<()> {
    let mut buffer = [0u8; LARGEST];
    let files = [
        (Kind::Runs(Core::Old), "old_core.bin"),
        (Kind::Runs(Core::Old), "old_core_base.bin"),
        (Kind::Runs(Core::Old), "old_core_edges.bin"),
        (Kind::Runs(Core::New), "new_core.bin"),
        (Kind::Runs(Core::New), "new_core_base.bin"),
        (Kind::Runs(Core::New), "new_core_edges.bin"),
        (Kind::Runs(Core::Trail), "trails.bin"),
        (Kind::Translation, "translate.bin"),
        (Kind::Translation, "edges.bin"),
        (Kind::Listing, "listings.bin"),
        (Kind::Words, "words.bin"),
    ];
    for (kind, name) in files {
        run(&rt, kind, name, &mut buffer)?;
    }
    Ok(())
}
