// The serial line: framing and receiving.
ghost use Rattle.std.specs.Prelude.{◌≡◌};
ghost use Rattle.dpa.specs.Answer.{length_result};
ghost use Rattle.framing.specs.Framing.{frame_of};
ghost use Rattle.uart.specs.Receiver.{new_receiver, receive_of};

use dpa::answer::LengthAnswer;
use uart::receive::receive;
use uart::receiver::{ReceiveAnswer, Receiver, new_receiver};

#[unsafe(no_mangle)]
pub extern "C" fn grelfint_uart_receiver(gateway: bool) -> Receiver
    ensures { result ≡ new_receiver gateway }
{
    new_receiver(gateway)
}

#[unsafe(no_mangle)]
pub extern "C" fn grelfint_uart_receive(receiver: Receiver, bytes: &[u8]) -> ReceiveAnswer
    ensures { result ≡ receive_of receiver bytes.now }
{
    receive(receiver, bytes)
}

#[unsafe(no_mangle)]
pub extern "C" fn grelfint_uart_frame(frame: &[u8], out: &mut [u8]) -> LengthAnswer
    ensures { length_result result out.new ≡ frame_of frame.now out.old }
{
    framing::frame::frame(frame, out).into()
}
