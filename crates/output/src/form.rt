// What is given to both passes: the form of the requests, and steps without a fault.
ghost use Rattle.std.specs.Prelude.{◌≡◌, ◌++◌, ◌+◌, ◌-◌, ◌*◌, ◌≤◌, length, drop};
ghost use Rattle.dpa.specs.Frame.{header_size, header_bytes};
ghost use Rattle.book.specs.Book.{step_length};
ghost use Rattle.step.specs.Step.{AllStepsGood};
ghost use Rattle.entries.specs.Writer.{HasRoom, Writes};
ghost use Rattle.output.specs.Requests.{Limits};

use book::step::Steps;
use dpa::frame::Frame;
use entries::write::Writer;

// Maximum size of an entry's PData, and of a list with its closing zero.
#[derive(Clone, Copy)]
pub struct SizeLimits {
    pub entry: usize,
    pub list: usize,
}

// What the requests of a scene have in common: the limits, the header, and the bytes in front of each list.
#[derive(Clone, Copy)]
pub struct RequestForm<'a> {
    pub limits: SizeLimits,
    pub header: Frame,
    pub front: &'a [u8],
    pub ghost fits: { Limits limits.entry limits.list front.now },
}

impl RequestForm<'_> {
    // The length byte of a request with a list of `size` bytes.
    pub(crate) fn length_byte(self, size: usize) -> u8
        requires { size ≤ self.limits.list }
        ensures { result ≡ size + (header_size + length self.entry.front.now) }
    {
        (size + (Frame::HEADER + self.front.len())) as u8
    }

    // Writes what a request starts with: its header, and the bytes in front of its list.
    pub(crate) fn write_prefix(self, out: &mut Writer)
        requires { HasRoom out.old (length (header_bytes self.header ++ self.front.now)) }
        ensures { Writes out.old out.new (header_bytes self.entry.header ++ self.entry.front.now) }
    {
        let Frame {
            nadr,
            pnum,
            pcmd,
            hwpid,
        } = self.header;
        out.write_bytes(&Frame::header(nadr, pnum, pcmd, hwpid));
        out.write_bytes(self.front);
    }
}

// Steps without a fault.
#[derive(Clone, Copy)]
pub struct GoodSteps<'a> {
    pub steps: Steps<'a>,
    pub ghost good: { AllStepsGood steps.body.now steps.count },
}

impl<'a> GoodSteps<'a> {
    // The steps from step `first` on.
    pub fn after(self, first: usize) -> GoodSteps<'a>
        requires { first ≤ self.steps.count }
        ensures { (result.steps.body.now ≡ drop (step_length * first) self.entry.steps.body.now) × (result.steps.count ≡ self.entry.steps.count - first) }
    {
        GoodSteps {
            steps: self.steps.after(first),
        }
    }
}
