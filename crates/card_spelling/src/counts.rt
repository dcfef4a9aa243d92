// Lines that hold a count.
ghost use Rattle.std.specs.Prelude.{◌≡◌, [], suc, ◌+◌, ◌≤◌, ◌<◌, length};
ghost use Rattle.std.proofs.lemmas.List.Edits.{sets};
ghost use Rattle.card_text.specs.Spelling.{count_text, count_digits, line};

use card_fields::put_bytes;

// The byte of a decimal digit.
fn digit(n: usize) -> u8
    requires { n < 10 }
    ensures { result ≡ 48 + n }
{
    b'0' + n as u8
}

// Puts the line of the key and the number there, a newline at its end.
pub fn put_count_line(into: &mut [u8], at: usize, key: &[u8], n: usize) -> usize
    requires { (n < 100) × (at + (length key.now + suc (count_digits n)) ≤ length into.old) }
    ensures behind { result ≡ at + (length key.now + suc (count_digits n)) }
    ensures put { into.new ≡ sets into.old at (line key.now (count_text n) []) }
{
    let p = put_bytes(into, at, key);
    if n < 10 {
        put_bytes(into, p, &[digit(n), b'\n'])
    } else {
        put_bytes(into, p, &[digit(n / 10), digit(n % 10), b'\n'])
    }
}
