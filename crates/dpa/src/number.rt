// Two-byte numbers, low byte first.
ghost use Rattle.std.specs.Prelude.{◌≡◌};
ghost use Rattle.dpa.specs.Number.{word};

// The contract says the number by its bytes, without the library's lists of bytes.
pub fn word_of(low: u8, high: u8) -> u16
    ensures { result ≡ word low high }
{
    u16::from_le_bytes([low, high])
}
