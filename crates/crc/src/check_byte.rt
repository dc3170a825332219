// The check byte of a frame: a 1-Wire CRC, four bytes at a time.
ghost use Rattle.std.specs.Prelude.{◌≡◌, ◌+◌, ◌*◌, ◌<◌};
ghost use Rattle.crc.specs.CheckByte.{shifts, crc_byte, crc_bytes, check_byte};
ghost use Rattle.crc.specs.ShiftTable.{bytes_at_once};

const INITIAL_CRC: u8 = 0xFF;

// Bytes of a block. Their lookups do not wait for each other.
const BLOCK: usize = 4;

// What is left of each hexadecimal digit of a byte, low or high, when the byte is shifted out and some more after it.
#[derive(Clone, Copy)]
struct Digits {
    low: [u8; 16],
    high: [u8; 16],
}

// Entry n: the digits of a byte that n more follow.
static SHIFT_TABLE: [Digits; BLOCK] = [
    Digits {
        low: [
            0x00, 0x5E, 0xBC, 0xE2, 0x61, 0x3F, 0xDD, 0x83, 0xC2, 0x9C, 0x7E, 0x20, 0xA3, 0xFD,
            0x1F, 0x41,
        ],
        high: [
            0x00, 0x9D, 0x23, 0xBE, 0x46, 0xDB, 0x65, 0xF8, 0x8C, 0x11, 0xAF, 0x32, 0xCA, 0x57,
            0xE9, 0x74,
        ],
    },
    Digits {
        low: [
            0x00, 0xC4, 0x91, 0x55, 0x3B, 0xFF, 0xAA, 0x6E, 0x76, 0xB2, 0xE7, 0x23, 0x4D, 0x89,
            0xDC, 0x18,
        ],
        high: [
            0x00, 0xEC, 0xC1, 0x2D, 0x9B, 0x77, 0x5A, 0xB6, 0x2F, 0xC3, 0xEE, 0x02, 0xB4, 0x58,
            0x75, 0x99,
        ],
    },
    Digits {
        low: [
            0x00, 0xAB, 0x4F, 0xE4, 0x9E, 0x35, 0xD1, 0x7A, 0x25, 0x8E, 0x6A, 0xC1, 0xBB, 0x10,
            0xF4, 0x5F,
        ],
        high: [
            0x00, 0x4A, 0x94, 0xDE, 0x31, 0x7B, 0xA5, 0xEF, 0x62, 0x28, 0xF6, 0xBC, 0x53, 0x19,
            0xC7, 0x8D,
        ],
    },
    Digits {
        low: [
            0x00, 0x8F, 0x07, 0x88, 0x0E, 0x81, 0x09, 0x86, 0x1C, 0x93, 0x1B, 0x94, 0x12, 0x9D,
            0x15, 0x9A,
        ],
        high: [
            0x00, 0x38, 0x70, 0x48, 0xE0, 0xD8, 0x90, 0xA8, 0xD9, 0xE1, 0xA9, 0x91, 0x39, 0x01,
            0x49, 0x71,
        ],
    },
];

// What is left of a byte when it and n more are shifted out.
fn shifted(byte: u8, n: usize) -> u8
    requires { n < bytes_at_once }
    ensures { result ≡ shifts (8 * (n + 1)) byte }
{
    let digits = &SHIFT_TABLE[n];
    digits.low[usize::from(byte % 16)] ^ digits.high[usize::from(byte / 16)]
}

// The CRC after a block. Only the lookup of the first byte waits for the CRC.
fn crc_block(crc: u8, block: &[u8; BLOCK]) -> u8
    ensures { result ≡ crc_bytes crc block.now }
{
    let [first, second, third, fourth] = *block;
    let later = shifted(second, 2) ^ shifted(third, 1) ^ shifted(fourth, 0);
    shifted(crc ^ first, 3) ^ later
}

// The CRC after one byte.
#[tactic(auto, unfolding(crate::specs::CheckByte::crc_byte))]
fn crc_byte(crc: u8, byte: u8) -> u8
    ensures { result ≡ crc_byte crc byte }
{
    shifted(crc ^ byte, 0)
}

// Adds blocks, then what is left.
pub fn check_byte(bytes: &[u8]) -> u8
    ensures { result ≡ check_byte bytes.now }
{
    let (blocks, rest) = bytes.as_chunks::<BLOCK>();
    let crc = blocks
        .iter()
        .fold(INITIAL_CRC, |crc, block| crc_block(crc, block));
    rest.iter().fold(crc, |crc, byte| crc_byte(crc, *byte))
}
