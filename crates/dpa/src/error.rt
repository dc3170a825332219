// ErrN of a response: 0, or the number of an error.
ghost use Rattle.std.specs.Prelude.{◌≡◌};
ghost use Rattle.dpa.specs.Error.{error_number, error_of};

// ErrN without an error.
pub const NONE: u8 = 0;

// An error of a request, with its ErrN. No other values are used.
#[derive(Clone, Copy, Debug, PartialEq, Eq)]
pub enum ErrN {
    Fail = 1,
    Pcmd = 2,
    Pnum = 3,
    Addr = 4,
    DataLen = 5,
    Data = 6,
    Hwpid = 7,
}

impl From<ErrN> for u8 {
    ghost from_gives = { λ error n. n ≡ error_number error };

    fn from(error: ErrN) -> u8 {
        error as u8
    }
}

// ErrN of an outcome.
pub fn errn_of<T: Copy>(outcome: Result<T, ErrN>) -> u8
    ensures { result ≡ error_of outcome }
{
    match outcome {
        Ok(_) => NONE,
        Err(error) => u8::from(error),
    }
}
