// Why a call refuses its arguments.
ghost use Rattle.std.specs.Prelude.{◌≡◌};
ghost use Rattle.dpa.specs.Refusal.{refusal_number, refusal_of};

// The number of a call that is not refused.
pub const NONE: u8 = 0;

// The refusals with their numbers. If several apply, the first of this list is returned.
#[derive(Clone, Copy, Debug, PartialEq, Eq)]
pub enum Refusal {
    // The record of a node, a receiver or a gateway breaks its rule, settings or an address are out of range, or a node set names address 0
    // or no node.
    Node = 1,
    // The frame is shorter than its header, or longer than the longest request; on the serial line, than the longest response.
    Frame = 2,
    // The response buffer is too small for the longest response.
    Response = 3,
    // A memory has the wrong size.
    Memory = 4,
    // A PData length exceeds what a frame can hold.
    Pdata = 5,
    // The bytes are not a valid scene book.
    Book = 6,
    // The book has no scene with this number.
    Scene = 7,
    // 81 to 84 are about the first bad step of the scene, whose number is returned too. Its kind is unknown.
    StepKind = 81,
    // Its target is not a lamp, or not in the memory.
    StepTarget = 82,
    // Its level is too high.
    StepValue = 83,
    // Its time is not valid, or it writes a memory and has a time.
    StepTime = 84,
    // The output buffer is too small for the longest compiled scene.
    Output = 9,
    // A view names neither EEPROM nor external memory.
    View = 10,
    // The output buffer is too small for the framed message.
    Framed = 11,
    // An address that no node can have, one that is bonded already, or one that is not bonded.
    Address = 12,
    // The send queue holds as many requests as it can.
    Full = 13,
    // A time before the last one given, or too late.
    Time = 14,
    // A view is longer than the longest block of a request.
    Block = 15,
    // A view starts or ends outside the memory.
    Range = 16,
}

impl From<Refusal> for u8 {
    ghost from_gives = { λ refusal n. n ≡ refusal_number refusal };

    fn from(refusal: Refusal) -> u8 {
        refusal as u8
    }
}

// The number that C gets. `errn_of` is no instance of it: what one function for both promises could only be said by `from_gives`.
pub fn status_of<T: Copy>(outcome: Result<T, Refusal>) -> u8
    ensures { result ≡ refusal_of outcome }
{
    match outcome {
        Ok(_) => NONE,
        Err(refusal) => u8::from(refusal),
    }
}
