// A line of the list.
ghost use Rattle.std.specs.Prelude.{◌≡◌};
ghost use Rattle.root_list.specs.Line.{line_of};

// What a line holds: one of three, so neither an Option nor a Result.
#[derive(Clone, Copy)]
pub enum Line {
    Comment,
    // An argument and its root.
    Pair(u32, u32),
    Bad,
}

// What stands from position `at` up to `end`: a comment where the first byte is '#', a pair where
// it is eight digits, a space and eight digits, and nothing else.
pub fn read_line(s: &[u8], at: usize, end: usize) -> Line
    ensures { result ≡ line_of s.now at end }
{
    if lines::byte_at(s, at) == b'#' {
        return Line::Comment;
    }
    let Some(arg) = lines::hex8(s, at) else {
        return Line::Bad;
    };
    if lines::byte_at(s, arg.next) != b' ' {
        return Line::Bad;
    }
    let Some(root) = lines::hex8(s, arg.next + 1) else {
        return Line::Bad;
    };
    if root.next == end {
        Line::Pair(arg.bits, root.bits)
    } else {
        Line::Bad
    }
}
