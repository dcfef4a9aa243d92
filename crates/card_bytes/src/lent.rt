// The bytes as they are lent.
ghost use Rattle.std.specs.Prelude.{◌≡◌, length};
ghost use Rattle.card_bytes.specs.Lent.{lent_byte, lent_bytes};

// What byte i is lent with: none that a card has.
pub fn lent_byte(i: usize) -> u8
    ensures { result ≡ lent_byte i }
{
    (128 + i % 128) as u8
}

// Gives each byte what it is lent with.
pub fn lend_bytes(bytes: &mut [u8])
    ensures { bytes.new ≡ lent_bytes (length bytes.old) bytes.old }
{
    for i in 0..bytes.len() {
        bytes[i] = lent_byte(i);
    }
}
