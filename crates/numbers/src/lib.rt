// Numbers of 32 bits, and numbers of four bytes, big-endian, in byte areas that the caller lends.
#![tactic(auto)]

ghost use Rattle.std.specs.Prelude.{◌≡◌, ◌+◌, ◌*◌, ◌/◌, ◌%◌, ◌^◌, ◌<◌, ◌≤◌, ◌++◌, length, take, drop};
ghost use Rattle.numbers.specs.Number.{plus, minus, signed, number_at, put_number, numbers_of, bytes_of, zero_from};

// The sum modulo 2^32.
#[tactic(auto, unfolding(crate::specs::Number::plus))]
pub fn add(a: u32, b: u32) -> u32
    ensures { result ≡ plus a b }
{
    a.wrapping_add(b)
}

// The difference modulo 2^32.
#[tactic(auto, unfolding(crate::specs::Number::minus))]
pub fn subtract(a: u32, b: u32) -> u32
    ensures { result ≡ minus a b }
{
    a.wrapping_sub(b)
}

// A number of so many bits with its sign extended to 32. With a constant number of bits the compiler makes two shifts of it.
#[inline(always)]
pub fn signed(bits: u32, v: u32) -> u32
    requires { (0 < bits) × (bits < 32) × (v < 2 ^ bits) }
    ensures { result ≡ signed bits v }
{
    let half = 1 << (bits - 1);
    subtract((v + half) % (half + half), half)
}

// The number whose four bytes start at a position, which goes beside the area, as `number_at` has it.
#[tactic(auto, unfolding(crate::specs::Number::number_at))]
pub fn read_number(bytes: &[u8], at: usize) -> u32
    requires { at + 4 ≤ length bytes.now }
    ensures { result ≡ number_at bytes.now at }
{
    u32::from_be_bytes([bytes[at], bytes[at + 1], bytes[at + 2], bytes[at + 3]])
}

// Puts a number's four bytes at a position.
pub fn write_number(bytes: &mut [u8], at: usize, v: u32)
    requires { at + 4 ≤ length bytes.old }
    ensures { bytes.new ≡ put_number bytes.old at v }
{
    bytes[at..at + 4].copy_from_slice(&v.to_be_bytes());
}

// Fills a list with the first numbers of an area.
#[tactic(auto, unfolding(crate::specs::Number::numbers_of, crate::specs::Number::up_to))]
pub fn read_numbers(bytes: &[u8], list: &mut [u32])
    requires { 4 * length list.old ≤ length bytes.now }
    ensures { list.new ≡ numbers_of bytes.now (length list.old) }
{
    for (i, v) in list.iter_mut().enumerate() {
        *v = read_number(bytes, 4 * i);
    }
}

// Puts the bytes of a list of numbers at a position.
pub fn write_numbers(bytes: &mut [u8], at: usize, list: &[u32])
    requires { at + 4 * length list.now ≤ length bytes.old }
    ensures { bytes.new ≡ take at bytes.old ++ bytes_of list.now ++ drop (at + 4 * length list.now) bytes.old }
{
    for (i, v) in list.iter().enumerate() {
        write_number(bytes, at + 4 * i, *v);
    }
}

// Sets the bytes from a position on to 0.
#[tactic(auto, unfolding(crate::specs::Number::zero_from))]
pub fn clear_from(bytes: &mut [u8], from: usize)
    requires { from ≤ length bytes.old }
    ensures { bytes.new ≡ zero_from from bytes.old }
{
    bytes[from..].fill(0);
}
