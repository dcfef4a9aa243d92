// A buffer that is filled again and again: what is kept of one fill stands at the front of the next.
#![tactic(auto)]

ghost use Rattle.std.specs.Prelude.{◌≡◌, ◌-◌, ◌<◌, ◌≤◌, length, take, drop, IfOk};
ghost use Rattle.std.specs.Io.{ReadsAtMost};
ghost use Rattle.std.specs.Io.KnownBytes.{Consumes, IsAtEnd};

use std::io;
use std::io::Read;

// Reads until the space is full or the input ends: how many bytes there are at the front of the space
// then. An error is one that a read gave. How far a turn goes is what the reader says, so no range
// counts them.
pub fn read_full<R: Read>(input: &mut R, space: &mut [u8]) -> io::Result<usize>
    ensures in_bounds { ReadsAtMost result space.new }
    ensures bytes { IfOk result (λ n. Consumes (R.remaining input.old) (R.remaining input.new) (take n space.new)) }
    ensures end { IfOk result (λ n. n < length space.new → IsAtEnd (R.remaining input.new)) }
{
    let mut done: usize = 0;
    while done < space.len() {
        let n = input.read(&mut space[done..])?;
        if n == 0 {
            break;
        }
        done += n;
    }
    Ok(done)
}

// Reads behind the bytes that are kept: how many bytes there are then, or the error of a read. A space
// that has no room for what is kept holds none.
pub fn refill<R: Read>(input: &mut R, kept: usize, space: &mut [u8]) -> io::Result<usize>
    ensures { ReadsAtMost result space.new }
{
    if space.len() < kept {
        return Ok(0);
    }
    let got = read_full(input, &mut space[kept..])?;
    Ok(kept + got)
}

// Where the lines to be read now end, of the first `got` bytes: behind the last newline where the
// buffer is full and has one, else at the end of these bytes.
pub fn lines_end(space: &[u8], got: usize) -> usize
    ensures within { result ≤ length space.now }
    ensures prefix { result ≡ length (take result space.now) }
{
    if got < space.len() {
        return got;
    }
    match space.iter().rposition(|b| *b == b'\n') {
        Some(last) => last + 1,
        None => space.len(),
    }
}

// Moves the bytes from a position on to the front: how many there are, none where it lies past the end.
pub fn move_down(space: &mut [u8], from: usize) -> usize
    ensures count { result ≡ length space.old - from }
    ensures front { take result space.new ≡ drop from space.old }
{
    let start = from.min(space.len());
    space.copy_within(start.., 0);
    space.len() - start
}

// Hands the whole lines of the input to `read`, as many at a time as the space holds. An unfinished line
// is moved to the front and read on; one that is longer than the space is handed on in parts. An error is
// one of a read, or of `read`. 2³² fills of the space are more than any list has.
pub fn feed<R: Read, F: FnMut(&[u8]) -> io::Result<()>>(
    input: &mut R,
    space: &mut [u8],
    mut read: F,
) -> io::Result<()>
    requires { F.IsAlwaysCallable read }
{
    let mut kept: usize = 0;
    for _ in 0..0x1_0000_0000u64 {
        let got = refill(input, kept, space)?;
        let end = lines_end(space, got);
        read(&space[..end])?;
        if got < space.len() {
            break;
        }
        kept = move_down(space, end);
    }
    Ok(())
}
