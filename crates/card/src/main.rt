// The fitter's tool (R36): reads a settings card on standard input and writes it again, or what is
// wrong with which of its lines.
#![tactic(auto)]

ghost use Rattle.std.specs.Prelude.{◌≤◌, length};

use card_words::report;
use refills::read_full;
use std::io;
use std::io::Read;

// Reads the card into the space, and writes the report on it by way of the other. What fills the
// space is longer than any card. An error is one of a read or a write.
fn tell(rt: &impl Print, input: &mut impl Read, space: &mut [u8], out: &mut [u8]) -> io::Result<()>
    requires { 9260 ≤ length out.old }
{
    let got = read_full(input, space)?;
    if got < space.len() {
        let l = report(&space[..got], out);
        rt.write_all(&out[..l])
    } else {
        rt.write_all(b"no card is longer than 9260 bytes\n")
    }
}

fn main(rt: HostRuntime) -> io::Result<()> {
    let mut space = [0u8; 65536];
    let mut out = [0u8; 9260];
    tell(&rt, &mut rt.reader(), &mut space, &mut out)
}
