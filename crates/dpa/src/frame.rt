// The header of a frame. PData follows it. Requests and responses share the first six bytes.
ghost use Rattle.std.specs.Prelude.{◌≡◌, ◌++◌, ◌≤◌, length, drop};
ghost use Rattle.dpa.specs.Frame.{header_size, response_header_size, frame, header_bytes, header_of, frame_fits, response_header};

use crate::copy::copy;
use crate::number::word_of;
use crate::settings::Settings;

// Set in the PCMD of a response.
pub const RESPONSE_BIT: u8 = 0x80;

// The header of a frame. It has the frame's name because the numbers of a frame belong to it.
#[derive(Clone, Copy)]
pub struct Frame {
    pub nadr: u16,
    pub pnum: u8,
    pub pcmd: u8,
    pub hwpid: u16,
}

impl Frame {
    pub const HEADER: usize = 6;

    pub const PDATA_MAX: usize = 56;

    pub const LONGEST: usize = Frame::HEADER + Frame::PDATA_MAX;

    pub const RESPONSE_HEADER: usize = 8;

    pub const RESPONSE_LONGEST: usize = Frame::RESPONSE_HEADER + Frame::PDATA_MAX;

    pub const BROADCAST: u16 = 0x00FF;

    pub const ANY_HWPID: u16 = 0xFFFF;

    // Where the fields of a header start.
    pub const AT_NADR: usize = 0;

    pub const AT_PNUM: usize = 2;

    pub const AT_PCMD: usize = 3;

    pub const AT_HWPID: usize = 4;

    // Where a response has two more.
    pub const AT_ERRN: usize = Frame::HEADER;

    pub const AT_DPA_VALUE: usize = Frame::HEADER + 1;

    // Returns the bytes of a header.
    pub fn header(nadr: u16, pnum: u8, pcmd: u8, hwpid: u16) -> [u8; Frame::HEADER]
        ensures { result ≡ header_bytes (frame nadr pnum pcmd hwpid) }
    {
        let [nadr_low, nadr_high] = nadr.to_le_bytes();
        let [hwpid_low, hwpid_high] = hwpid.to_le_bytes();
        [nadr_low, nadr_high, pnum, pcmd, hwpid_low, hwpid_high]
    }

    // Reads the header at the start of a frame. That it is there is a `requires`: C lends frames as bytes of any length.
    pub fn read(s: &[u8]) -> Frame
        requires { header_size ≤ length s.now }
        ensures { result ≡ header_of s.now }
    {
        Frame {
            nadr: word_of(s[Self::AT_NADR], s[Self::AT_NADR + 1]),
            pnum: s[Self::AT_PNUM],
            pcmd: s[Self::AT_PCMD],
            hwpid: word_of(s[Self::AT_HWPID], s[Self::AT_HWPID + 1]),
        }
    }

    // Returns whether n bytes are a valid frame length.
    pub fn fits(n: usize) -> bool
        ensures { result ≡ frame_fits n }
    {
        if n < Self::HEADER {
            return false;
        }
        n <= Self::LONGEST
    }
}

// Writes the eight header bytes of a response to the front of its buffer.
pub fn write_response_header(response: &mut [u8], settings: Settings, pnum: u8, pcmd: u8, error: u8)
    requires { response_header_size ≤ length response.old }
    ensures { response.new ≡ response_header settings pnum pcmd error ++ drop response_header_size response.old }
{
    let header = Frame::header(
        settings.address,
        pnum,
        pcmd % RESPONSE_BIT + RESPONSE_BIT,
        settings.hwpid,
    );
    copy(&header, response);
    response[Frame::AT_ERRN] = error;
    response[Frame::AT_DPA_VALUE] = settings.dpa_value;
}
