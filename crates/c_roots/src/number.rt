// The square root and the reciprocal of a number.
ghost use Rattle.std.specs.Prelude.{◌≡◌};
ghost use Rattle.std.specs.Float.{binary32};
ghost use Rattle.numbers.specs.Root.{sqrt_of};
ghost use Rattle.numbers.specs.Reciprocal.{recip_of};

// The root of x, the nearest f32.
#[unsafe(no_mangle)]
pub extern "C" fn yurgamysh_square_root(x: f32) -> f32
    ensures { result ≡ sqrt_of binary32 x }
{
    data_type::square_root(x)
}

// 1/v, rounded once.
#[unsafe(no_mangle)]
pub extern "C" fn yurgamysh_recip(v: f32) -> f32
    ensures { result ≡ recip_of binary32 v }
{
    data_type::recip(v)
}
