// What C gets from a call that writes to the front of a buffer: a refusal number, and how many bytes were written. Each record that C gets
// has a conversion of its own, because the C header and the definitions name the fields of each.
ghost use Rattle.std.specs.Prelude.{◌≡◌};
ghost use Rattle.dpa.specs.Answer.{length_answer};

use crate::refusal::{NONE, Refusal};

#[repr(C)]
#[derive(Clone, Copy)]
pub struct LengthAnswer {
    pub refusal: u8,
    pub length: usize,
}

impl From<Result<usize, Refusal>> for LengthAnswer {
    ghost from_gives = { λ outcome answer. answer ≡ length_answer outcome };

    fn from(outcome: Result<usize, Refusal>) -> LengthAnswer {
        match outcome {
            Ok(length) => LengthAnswer {
                refusal: NONE,
                length,
            },
            Err(refusal) => LengthAnswer {
                refusal: u8::from(refusal),
                length: 0,
            },
        }
    }
}
