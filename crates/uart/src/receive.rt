// Receiving: the bytes of a call up to the first flag that completes or drops a frame.
ghost use Rattle.std.specs.Prelude.{◌≡◌};
ghost use Rattle.uart.specs.Receiver.{receive_of};

use crate::progress::Progress;
use crate::receiver::{ReceiveAnswer, Receiver};

// Takes bytes up to the first flag that completes or drops a frame, or all of them.
pub fn receive(receiver: Receiver, bytes: &[u8]) -> ReceiveAnswer
    ensures { result ≡ receive_of receiver bytes.now }
{
    let mut progress = match Progress::try_from(receiver) {
        Ok(progress) => progress,
        Err(refusal) => return ReceiveAnswer::refused(refusal, receiver),
    };
    for (i, byte) in bytes.iter().enumerate() {
        if progress.ends(*byte) {
            return progress.end_frame(i + 1);
        }
        progress.take(*byte);
    }
    ReceiveAnswer::nothing(bytes.len(), Receiver::from(progress))
}
