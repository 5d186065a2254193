// Text in a buffer that is lent: bytes, decimal numbers, lines of numbers.
ghost use Rattle.std.specs.Prelude.{◌≡◌, ◌+◌, ◌*◌, ◌≤◌, ◌<◌, ◌^◌, length};
ghost use Rattle.listing.specs.Text.{decimal, line_of, separator, Put};

// A buffer with the text that was put so far, at its start.
#[derive(Drop)]
pub struct Text<'a> {
    pub out: &'a mut [u8],
    pub len: usize,
}

// What follows a number: a space before another, else the line's end.
#[tactic(auto, unfolding(crate::specs::Text::separator))]
fn separator(more: bool) -> u8
    ensures { result ≡ separator more }
{
    if more { b' ' } else { b'\n' }
}

impl<'a> Text<'a> {
    pub fn new(out: &'a mut [u8]) -> Text<'a>
        ensures same_reference { result.out.ghost_name ≡ out.entry.ghost_name }
        ensures bytes { result.out.now ≡ out.old }
        ensures empty { result.len ≡ 0 }
    {
        Text { out, len: 0 }
    }

    // Puts bytes.
    #[tactic(auto, unfolding(crate::specs::Text::inserted))]
    pub fn put_bytes(&mut self, bytes: &[u8])
        requires { self.old.len + length bytes.now ≤ length self.old.out.now }
        ensures { Put self.old bytes.now (length bytes.now) self.new }
    {
        let end = self.len + bytes.len();
        self.out[self.len..end].copy_from_slice(bytes);
        self.len = end;
    }

    // Puts a number in decimal digits.
    #[tactic(auto, using(crate::proofs::Decimal::decimal_as_printed, crate::proofs::Writing::put_within))]
    fn put_number(&mut self, v: u64)
        requires { self.old.len + 20 ≤ length self.old.out.now }
        ensures { Put self.old (decimal v) 20 self.new }
    {
        let mut buffer = itoa::Buffer::new();
        self.put_bytes(buffer.format(v).as_bytes());
    }

    // Puts a line of numbers.
    pub fn put_line(&mut self, numbers: &[u64])
        requires { self.old.len + 21 * length numbers.now ≤ length self.old.out.now }
        ensures { Put self.old (line_of numbers.now) (21 * length numbers.now) self.new }
    {
        for (j, v) in numbers.iter().enumerate() {
            self.put_number(*v);
            self.put_bytes(&[separator(j + 1 < numbers.len())]);
        }
    }
}
