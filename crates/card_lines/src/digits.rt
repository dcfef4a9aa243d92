// Hexadecimal digits in lower case, with no branch between the decimal ones and the letters: which of
// them stands there is by chance.
ghost use Rattle.std.specs.Prelude.{◌≡◌, ◌/◌, ◌<◌};
ghost use Rattle.lines.specs.Hex.{digit_of};

// 1 where the byte is no digit, else 0.
pub fn other(b: u8) -> u32
    ensures { result ≡ digit_of b / 16 }
{
    match b {
        b'0'..=b'9' => 0,
        b'a'..=b'f' => 0,
        _ => 1,
    }
}

// What a digit is worth.
pub fn worth(b: u8) -> u32
    requires { digit_of b < 16 }
    ensures { result ≡ digit_of b }
{
    let x = b as u32;
    x % 16 + x / 64 * 9
}
