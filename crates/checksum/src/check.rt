// The code check: compares the checksum of a code image in external memory with the one in the request.
ghost use Rattle.std.specs.Prelude.{◌≡◌, ◌+◌, ◌≤◌, length, OnOk};
ghost use Rattle.dpa.specs.Error.{error_of};
ghost use Rattle.dpa.specs.Frame.{pdata_max};
ghost use Rattle.dpa.specs.Reply.{reply_in_buffer};
ghost use Rattle.dpa.specs.Sizes.{external_size};
ghost use Rattle.checksum.specs.Check.{pdata_length, load_flag, plugin_flag, reserved_flags, size_of_block, initial_low_of, image_of, image_error, image_matches, code_check};
ghost use Rattle.checksum.specs.Seen.{check_seen};

use crate::sums::image_sums;
use dpa::error::ErrN;
use dpa::number::word_of;
use dpa::sizes::EXTERNAL_SIZE;

// PCMD of a code check.
pub const CODE_CHECK: u8 = 0x0A;

// Bytes of PData: flags, address, length, checksum.
const PDATA_LENGTH: usize = 7;

// The fields of PData: the type of the image, where it is, and its checksum.
#[derive(Clone, Copy, Debug, PartialEq, Eq)]
pub struct Image {
    // One byte, because the definitions `image_of` and `image_error` have the flags as a number.
    pub flags: u8,
    pub address: u16,
    pub length: u16,
    pub sum: u16,
}

impl Image {
    // Bits of the flags.
    const LOAD: u8 = 1;

    const PLUGIN: u8 = 2;

    // Block sizes: an image's length is a multiple of the one for its type.
    const HEX_BLOCK: usize = 64;

    const PLUGIN_BLOCK: usize = 20;

    // Initial values of the low sum.
    const HEX_INITIAL: u8 = 1;

    const PLUGIN_INITIAL: u8 = 3;

    fn read(pdata: &[u8]) -> Image
        requires { length pdata.now ≡ pdata_length }
        ensures { result ≡ image_of pdata.now }
    {
        Image {
            flags: pdata[0],
            address: word_of(pdata[1], pdata[2]),
            length: word_of(pdata[3], pdata[4]),
            sum: word_of(pdata[5], pdata[6]),
        }
    }

    // Flag bit 0: load the image if the checksum matches.
    fn loads_on_match(self) -> bool
        ensures { result ≡ load_flag self.flags }
    {
        self.flags & Self::LOAD != 0
    }

    // Flag bit 1: the image is an IQRF plug-in; otherwise it is from a .hex file.
    fn is_plugin(self) -> bool
        ensures { result ≡ plugin_flag self.flags }
    {
        self.flags & Self::PLUGIN != 0
    }

    // Flag bits 2 to 7 must be 0.
    fn has_reserved_flags(self) -> bool
        ensures { result ≡ reserved_flags self.flags }
    {
        self.flags & !(Self::LOAD | Self::PLUGIN) != 0
    }

    #[tactic(auto, unfolding(crate::specs::Check::size_of_block))]
    fn block_size(self) -> usize
        ensures { (result ≡ size_of_block self.flags) × (1 ≤ result) }
    {
        if self.is_plugin() {
            return Self::PLUGIN_BLOCK;
        }
        Self::HEX_BLOCK
    }

    #[tactic(auto, unfolding(crate::specs::Check::initial_low_of))]
    fn initial_low(self) -> u8
        ensures { result ≡ initial_low_of self.flags }
    {
        if self.is_plugin() {
            return Self::PLUGIN_INITIAL;
        }
        Self::HEX_INITIAL
    }

    // Tests the fields. Address and length are added as usize, so that the sum cannot overflow.
    #[tactic(auto, unfolding(crate::specs::Check::image_error))]
    fn check(self) -> Result<(), ErrN>
        ensures error { error_of result ≡ image_error self }
        ensures fits { OnOk result (self.address + self.length ≤ external_size) }
    {
        if self.has_reserved_flags() {
            return Err(ErrN::Fail);
        }
        let size = usize::from(self.length);
        if size == 0 {
            return Err(ErrN::Data);
        }
        if size % self.block_size() != 0 {
            return Err(ErrN::Data);
        }
        if EXTERNAL_SIZE < usize::from(self.address) + size {
            return Err(ErrN::Addr);
        }
        Ok(())
    }

    // Whether the image has the checksum that came with it.
    #[tactic(auto, unfolding(crate::specs::Check::image_matches))]
    fn matches(self, external: &[u8]) -> bool
        requires { self.address + self.length ≤ length external.now }
        ensures { result ≡ image_matches external.now self }
    {
        let address = usize::from(self.address);
        let end = address + usize::from(self.length);
        let sums = image_sums(
            &external[address..end],
            self.initial_low(),
            self.block_size(),
        );
        word_of(sums.low, sums.high) == self.sum
    }
}

// Handles the request, and says whether the image is to be loaded. The response has one data byte, 1 on a match; an error writes none.
#[tactic(auto, unfolding(crate::specs::Check::code_check))]
pub fn code_check(external: &[u8], pdata: &[u8], out: &mut [u8]) -> Result<bool, ErrN>
    requires { (length external.now ≡ external_size) × (pdata_max ≤ length out.old) }
    ensures { check_seen result out.new ≡ reply_in_buffer (code_check external.now pdata.now) out.old }
{
    if pdata.len() != PDATA_LENGTH {
        return Err(ErrN::DataLen);
    }
    let image = Image::read(pdata);
    image.check()?;
    let matches = image.matches(external);
    out[0] = u8::from(matches);
    Ok(matches && image.loads_on_match())
}
