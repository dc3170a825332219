// The one's complement Fletcher-16 checksum: a byte sum that exceeds 255 gets its carry added. Within a block the sums are plain, and
// the carries of the whole block are added by one reduction at its end.
ghost use Rattle.std.specs.Prelude.{◌≡◌, ◌≤◌, length};
ghost use Rattle.checksum.specs.Sums.{sums, start};
ghost use Rattle.checksum.specs.Blocks.{block_max, plainly, plain_sums, reduce};

// The most bytes between two reductions. The high sum then needs 20 bits.
const BLOCK_MAX: usize = 64;

#[derive(Clone, Copy, Debug, PartialEq, Eq)]
pub struct Sums {
    pub low: u8,
    pub high: u8,
}

// Sums without carries.
#[derive(Clone, Copy)]
struct PlainSums {
    low: u32,
    high: u32,
}

// Reduces a plain sum modulo 255 to a byte: 0 for 0, otherwise 1 to 255. Other multiples of 255 give 255, as they do with carries.
#[tactic(auto, unfolding(crate::specs::Blocks::reduce))]
fn reduce(sum: u32) -> u8
    ensures { result ≡ reduce sum }
{
    if sum == 0 {
        return 0;
    }
    ((sum - 1) % 255 + 1) as u8
}

impl Sums {
    // The sums before the first byte.
    pub fn start(initial_low: u8) -> Sums
        ensures { result ≡ start initial_low }
    {
        Sums {
            low: initial_low,
            high: 0,
        }
    }

    // Adds each byte to the low sum and each new low sum to the high sum, without carries.
    #[tactic(auto, unfolding(crate::specs::Blocks::plain_sums))]
    fn plain_sums(self, block: &[u8]) -> PlainSums
        requires { length block.now ≤ block_max }
        ensures { result ≡ plain_sums (plainly self) block.now }
    {
        let mut low = u32::from(self.low);
        let mut high = u32::from(self.high);
        for byte in block {
            low += u32::from(*byte);
            high += low;
        }
        PlainSums { low, high }
    }

    // Adds a block: plain sums, reduced once.
    fn add_block(self, block: &[u8]) -> Sums
        requires { length block.now ≤ block_max }
        ensures { result ≡ sums self block.now }
    {
        let plain = self.plain_sums(block);
        Sums {
            low: reduce(plain.low),
            high: reduce(plain.high),
        }
    }
}

// The sums over an image, block by block; the last block may be shorter. A block size over 64 is cut to 64, the limit of `add_block`.
#[tactic(auto, using(crate::proofs::Fletcher::sums_append), unfolding(crate::specs::Sums::sums))]
pub fn image_sums(image: &[u8], initial_low: u8, block_size: usize) -> Sums
    requires { 1 ≤ block_size }
    ensures { result ≡ sums (start initial_low) image.now }
{
    let mut sums = Sums::start(initial_low);
    for block in image.chunks(block_size.min(BLOCK_MAX)) {
        sums = sums.add_block(block);
    }
    sums
}
