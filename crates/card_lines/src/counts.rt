// Lines that hold a count.
ghost use Rattle.std.specs.Prelude.{◌≡◌, false, option_map};
ghost use Rattle.card_text.specs.Lines.{ends};
ghost use Rattle.card_lines.specs.Front.{count_first, counted, with_rest};

// The count in the first line of the text, and the text behind the line: the key, one decimal digit or
// two of which the first is not 0, and a newline. None of another line.
pub fn count_line<'a>(text: &'a [u8], key: &[u8]) -> Option<(usize, &'a [u8])>
    requires { ends key.now ≡ false }
    ensures { with_rest result ≡ counted key.now text.now }
{
    count_here(text.strip_prefix(key)?)
}

// The same from behind the key on.
fn count_here(text: &[u8]) -> Option<(usize, &[u8])>
    ensures { with_rest result ≡ count_first text.now }
{
    match text {
        [b @ b'0'..=b'9', b'\n', rest @ ..] => Some((usize::from(*b - b'0'), rest)),
        [b @ b'1'..=b'9', c @ b'0'..=b'9', b'\n', rest @ ..] => {
            let tens = usize::from(*b - b'0');
            let ones = usize::from(*c - b'0');
            Some((tens * 10 + ones, rest))
        }
        _ => None,
    }
}
