// The steps of a scene, as they are in the bytes.
ghost use Rattle.std.specs.Prelude.{◌≡◌, ◌+◌, ◌-◌, ◌*◌, ◌≤◌, ◌<◌, length, drop};
ghost use Rattle.book.specs.Book.{steps_max, step_length};
ghost use Rattle.book.specs.Positions.{step_at};

// The most steps of a scene.
pub const STEPS_MAX: usize = 64;

// The bytes of a step.
pub const STEP_LENGTH: usize = 4;

// The target is a lamp or an address; the time is a time byte of the lights peripheral, or 0.
#[repr(C)]
#[derive(Clone, Copy, Debug, PartialEq, Eq)]
pub struct Step {
    pub kind: u8,
    pub target: u8,
    pub value: u8,
    pub time: u8,
}

// Step i of a scene's body.
pub fn step_at(body: &[u8], i: usize) -> Step
    requires { step_length * i + step_length ≤ length body.now }
    ensures { result ≡ step_at body.now i }
{
    Step {
        kind: body[STEP_LENGTH * i],
        target: body[STEP_LENGTH * i + 1],
        value: body[STEP_LENGTH * i + 2],
        time: body[STEP_LENGTH * i + 3],
    }
}

// Steps at the front of the bytes `body`: those of a scene, or some that follow one another in it. They stay bytes with a count, since the
// book is bytes that C lends (`grelfint_compile`), and a step is read where it stands.
#[derive(Clone, Copy)]
pub struct Steps<'a> {
    pub body: &'a [u8],
    pub count: usize,
    pub ghost fits: { step_length * count ≤ length body.now },
    pub ghost few: { count ≤ steps_max },
}

impl<'a> Steps<'a> {
    // Step i.
    pub fn step(self, i: usize) -> Step
        requires { i < self.count }
        ensures { result ≡ step_at self.entry.body.now i }
    {
        step_at(self.body, i)
    }

    // `count` steps from step `first` on.
    pub fn part(self, first: usize, count: usize) -> Steps<'a>
        requires { first + count ≤ self.count }
        ensures { (result.body.now ≡ drop (step_length * first) self.entry.body.now) × (result.count ≡ count) }
    {
        Steps {
            body: &self.body[STEP_LENGTH * first..],
            count,
        }
    }

    // The steps from step `first` on.
    pub fn after(self, first: usize) -> Steps<'a>
        requires { first ≤ self.count }
        ensures { (result.body.now ≡ drop (step_length * first) self.entry.body.now) × (result.count ≡ self.entry.count - first) }
    {
        self.part(first, self.count - first)
    }
}

// The steps one after another.
impl Iterator for Steps<'_> {
    type Item = Step;

    ghost use Rattle.std.specs.Iterator.{YieldsFirst, item_count};
    ghost use Rattle.book.specs.Steps.{steps_of};

    ghost next_gives = { YieldsFirst steps_of };

    ghost remaining = { item_count steps_of };

    fn next(&mut self) -> Option<Step> {
        if self.count == 0 {
            return None;
        }
        let first = self.step(0);
        *self = self.after(1);
        Some(first)
    }
}
