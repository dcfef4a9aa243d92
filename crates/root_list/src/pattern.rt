// The comparison of a root with the one that a list has, by their bit patterns.
ghost use Rattle.std.specs.Prelude.{◌≡◌};
ghost use Rattle.root_list.specs.Pattern.{root_bits, agrees_of};

// The pattern of the root of the number with the pattern arg.
pub fn root_bits(arg: u32) -> u32
    ensures { result ≡ root_bits arg }
{
    lines::bits_of(data_type::square_root(lines::float_of(arg)))
}

// Whether the root of the number with the pattern arg has the pattern want.
pub fn agrees(arg: u32, want: u32) -> bool
    ensures { result ≡ agrees_of arg want }
{
    lines::same(root_bits(arg), want)
}
