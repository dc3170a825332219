// A request, as a frame has it.
ghost use Rattle.std.specs.Prelude.{◌≡◌, ◌≤◌, length};
ghost use Rattle.dpa.specs.Frame.{header_size, header_of};
ghost use Rattle.outcome.specs.Request.{frame_request};
ghost use Rattle.outcome.specs.Seen.{request_seen};

use dpa::frame::Frame;

// The header of the frame, and PData.
#[derive(Clone, Copy)]
pub struct Request<'a> {
    pub header: Frame,
    pub pdata: &'a [u8],
}

impl<'a> Request<'a> {
    // Reads the request in a frame.
    #[tactic(auto, using(crate::proofs::Calls::frame_request_read))]
    pub fn read(frame: &'a [u8]) -> Request<'a>
        requires { header_size ≤ length frame.now }
        ensures header { result.header ≡ header_of frame.now }
        ensures request { request_seen result ≡ frame_request frame.now }
    {
        Request {
            header: Frame::read(frame),
            pdata: &frame[Frame::HEADER..],
        }
    }
}
