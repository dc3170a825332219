// Timeslots, waiting and confirmations.
ghost use Rattle.std.specs.Prelude.{◌≡◌};
ghost use Rattle.dpa.specs.Answer.{length_result};
ghost use Rattle.timing.specs.Confirm.{confirm_of};
ghost use Rattle.timing.specs.Slot.{network_of, timeslot_of, send_of};

use dpa::answer::LengthAnswer;
use timing::confirm::confirm;
use timing::slot::{SendAnswer, SlotAnswer, earliest_send, timeslot};

#[unsafe(no_mangle)]
pub extern "C" fn grelfint_confirm(
    frame: &[u8],
    dpa_value: u8,
    hops: u8,
    response_hops: u8,
    lp: bool,
    out: &mut [u8],
) -> LengthAnswer
    ensures { length_result result out.new ≡ confirm_of frame.now dpa_value hops response_hops (network_of lp) out.old }
{
    confirm(frame, dpa_value, hops, response_hops, lp.into(), out).into()
}

#[unsafe(no_mangle)]
pub extern "C" fn grelfint_timeslot(pdata_length: usize, lp: bool) -> SlotAnswer
    ensures { result ≡ timeslot_of pdata_length (network_of lp) }
{
    timeslot(pdata_length, lp.into()).into()
}

#[unsafe(no_mangle)]
pub extern "C" fn grelfint_earliest_send(
    hops: u8,
    request_length: usize,
    delay: u16,
    response_hops: u8,
    response_length: usize,
    lp: bool,
    broadcast: bool,
) -> SendAnswer
    ensures { result ≡ send_of hops request_length delay response_hops response_length (network_of lp) broadcast }
{
    earliest_send(
        hops,
        request_length,
        delay,
        response_hops,
        response_length,
        lp.into(),
        broadcast,
    )
    .into()
}
