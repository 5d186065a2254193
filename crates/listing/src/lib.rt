// The listing: all that the listing program writes, for the bytes that it read.
#![tactic(auto)]

ghost use Rattle.std.specs.Prelude.{◌≡◌, ◌+◌, ◌*◌, ◌≤◌, [], ◌∷◌, length};
ghost use Rattle.numbers.specs.Number.{number_at};
ghost use Rattle.translator.specs.Handing.{places_counted, records_counted};
ghost use Rattle.listing.specs.Text.{Put};
ghost use Rattle.listing.specs.Listing.{place_lines, record_lines, tables, refusal_text, answer_text, Listed};

use model::Answer;
use text::Text;

mod text;

// The most bytes of an image that is listed.
const LONGEST: usize = 1024;

fn number(bytes: &[u8], at: usize) -> u64
    requires { at + 4 ≤ length bytes.now }
    ensures { result ≡ number_at bytes.now at }
{
    u64::from(numbers::read_number(bytes, at))
}

// Puts a line for each of the first places of a table. (The count stands beside the table, which may have more rows: `place_lines` counts them.)
fn put_places(text: &mut Text, places: &[u8], count: usize)
    requires { (16 * count ≤ length places.now) × (text.old.len + 105 * count ≤ length text.old.out.now) }
    ensures { Put text.old (place_lines places.now count 0) (105 * count) text.new }
{
    for i in 0..count {
        let p = number(places, 16 * i);
        let n = number(places, 16 * i + 4);
        let kind = number(places, 16 * i + 8);
        let first = number(places, 16 * i + 12);
        text.put_line(&[i as u64, p, n, kind, first]);
    }
}

// Puts a line for each of the first records of a list. (One function for both, over a closure from i to an array of N numbers, was tried:
// a bound `Fn` that names a const parameter gets no proof yet. A trait for rows of either width is longer than both loops.)
fn put_records(text: &mut Text, records: &[u8], count: usize)
    requires { (12 * count ≤ length records.now) × (text.old.len + 63 * count ≤ length text.old.out.now) }
    ensures { Put text.old (record_lines records.now count 0) (63 * count) text.new }
{
    for i in 0..count {
        let kind = number(records, 12 * i);
        let first = number(records, 12 * i + 4);
        let second = number(records, 12 * i + 8);
        text.put_line(&[kind, first, second]);
    }
}

// Puts n places and m records, each under their names.
fn put_tables(text: &mut Text, places: &[u8], n: usize, records: &[u8], m: usize)
    requires { (16 * n ≤ length places.now) × (12 * m ≤ length records.now) × (text.old.len + 49 + 105 * n + 63 * m ≤ length text.old.out.now) }
    ensures { Put text.old (tables places.now n records.now m) (49 + 105 * n + 63 * m) text.new }
{
    text.put_bytes(b"place address next kind record\n");
    put_places(text, places, n);
    text.put_bytes(b"kind first second\n");
    put_records(text, records, m);
}

// Puts a refusal's number and its value under their names.
fn put_refusal(text: &mut Text, number: u64, detail: u64)
    requires { text.old.len + 57 ≤ length text.old.out.now }
    ensures { Put text.old (refusal_text (number ∷ detail ∷ [])) 57 text.new }
{
    text.put_bytes(b"refused detail\n");
    text.put_line(&[number, detail]);
}

// Puts what a translation answered and left in its buffers.
fn put_answer(text: &mut Text, answer: Answer, places: &[u8], records: &[u8])
    requires { (16 * places_counted answer ≤ length places.now) × (12 * records_counted answer ≤ length records.now) × (length places.now ≤ 8192) × (length records.now ≤ 12288) × (text.old.len + 131072 ≤ length text.old.out.now) }
    ensures { Put text.old (answer_text answer places.now records.now) 131072 text.new }
{
    match answer {
        Ok(counts) => put_tables(
            text,
            places,
            counts.places as usize,
            records,
            counts.records as usize,
        ),
        Err(refusal) => {
            let (number, value) = refusal.numbers();
            put_refusal(text, u64::from(number), value)
        }
    }
}

// The listing of the bytes read: at the start of the buffer, so many bytes as are answered; the others stay as they were.
pub fn list(bytes: &[u8], out: &mut [u8; 131072]) -> usize
    ensures { Listed bytes.now out.old out.new result }
{
    let mut text = Text::new(out);
    if LONGEST < bytes.len() {
        put_refusal(&mut text, 1, 1025);
        return text.len;
    }
    let entry = [0u8; 4];
    let mut places = [0u8; 8192];
    let mut records = [0u8; 12288];
    let answer = translator::translate(bytes, 0, &entry, &mut places, &mut records);
    put_answer(&mut text, answer, &places, &records);
    text.len
}
