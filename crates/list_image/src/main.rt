// Reads an image from standard input and prints its listing. One byte more than an image may have tells a longer input.
#![tactic(auto)]

use std::io;

fn main(rt: HostRuntime) -> io::Result<()> {
    let mut image = [0u8; 1025];
    let mut output = [0u8; 131072];
    let n = input::read_full(&mut rt.stdin(), &mut image)?;
    let k = listing::list(&image[..n], &mut output);
    rt.write_all(&output[..k])
}
