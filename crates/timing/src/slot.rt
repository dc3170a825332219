// Timeslots, and the times computed from them.
ghost use Rattle.std.specs.Prelude.{◌≡◌, ◌≤◌, ◌<◌, MatchResult};
ghost use Rattle.dpa.specs.Frame.{pdata_max};
ghost use Rattle.timing.specs.Slot.{network_of, base_slot, network_extra, slot_of, direction_time, direction_max, slot_answer_of, timeslot_of, send_answer_of, send_of};

use dpa::frame::Frame;
use dpa::refusal::{NONE, Refusal};

// The network type.
#[derive(Clone, Copy, Debug, PartialEq, Eq)]
pub enum Network {
    Std,
    StdLp,
}

// C passes the network type as a flag: true is STD+LP.
impl From<bool> for Network {
    ghost from_gives = { λ lp network. network ≡ network_of lp };

    #[tactic(auto, unfolding(crate::specs::Slot::network_of))]
    fn from(lp: bool) -> Network {
        if lp { Network::StdLp } else { Network::Std }
    }
}

// PData lengths of a medium slot; shorter PData takes a short slot, longer PData a long one.
const MEDIUM_MIN: usize = 17;

const MEDIUM_MAX: usize = 40;

// Slots in units of 10 ms.
const SHORT_SLOT: u8 = 4;

const MEDIUM_SLOT: u8 = 5;

const LONG_SLOT: u8 = 6;

// What a low-power network adds to a slot.
const LP_EXTRA: u8 = 4;

pub const SLOT_UNIT_MS: u32 = 10;

// The longest wait, in ms.
pub const WAIT_MAX: u64 = 116735;

// What C gets from `timeslot`: the refusal is a number beside the slot, for grelfint_timeslot.
#[repr(C)]
#[derive(Clone, Copy)]
pub struct SlotAnswer {
    pub refusal: u8,
    pub slot: u8,
}

impl From<Result<u8, Refusal>> for SlotAnswer {
    ghost from_gives = { λ outcome answer. answer ≡ slot_answer_of outcome };

    fn from(outcome: Result<u8, Refusal>) -> SlotAnswer {
        match outcome {
            Ok(slot) => SlotAnswer {
                refusal: NONE,
                slot,
            },
            Err(refusal) => SlotAnswer {
                refusal: u8::from(refusal),
                slot: 0,
            },
        }
    }
}

// What C gets from `earliest_send`: the refusal is a number beside the time, for grelfint_earliest_send.
#[repr(C)]
#[derive(Clone, Copy)]
pub struct SendAnswer {
    pub refusal: u8,
    pub milliseconds: u32,
}

impl From<Result<u32, Refusal>> for SendAnswer {
    ghost from_gives = { λ outcome answer. answer ≡ send_answer_of outcome };

    fn from(outcome: Result<u32, Refusal>) -> SendAnswer {
        match outcome {
            Ok(milliseconds) => SendAnswer {
                refusal: NONE,
                milliseconds,
            },
            Err(refusal) => SendAnswer {
                refusal: u8::from(refusal),
                milliseconds: 0,
            },
        }
    }
}

// The part of a slot that depends on the PData length.
#[tactic(auto, unfolding(crate::specs::Slot::base_slot))]
fn base_slot(pdata_length: usize) -> u8
    ensures { (result ≡ base_slot pdata_length) × (result ≤ 6) }
{
    if pdata_length < MEDIUM_MIN {
        return SHORT_SLOT;
    }
    if pdata_length <= MEDIUM_MAX {
        return MEDIUM_SLOT;
    }
    LONG_SLOT
}

// The part of a slot that depends on the network type.
#[tactic(auto, unfolding(crate::specs::Slot::network_extra))]
fn network_extra(network: Network) -> u8
    ensures { (result ≡ network_extra network) × (result ≤ 4) }
{
    match network {
        Network::Std => 0,
        Network::StdLp => LP_EXTRA,
    }
}

// The slot for a PData length, in units of 10 ms.
#[tactic(auto, unfolding(crate::specs::Slot::slot_of))]
pub fn slot_of(pdata_length: usize, network: Network) -> u8
    ensures { result ≡ slot_of pdata_length network }
{
    base_slot(pdata_length) + network_extra(network)
}

// Time for one direction: (hops + 1) slots, in ms.
#[tactic(auto, unfolding(crate::specs::Slot::direction_time))]
fn direction_time(hops: u8, slot: u8) -> u32
    ensures { (result ≡ direction_time hops slot) × (result ≤ direction_max) }
{
    (u32::from(hops) + 1) * u32::from(slot) * SLOT_UNIT_MS
}

// Refuses PData that no frame can hold.
fn check_length(pdata_length: usize) -> Result<(), Refusal>
    ensures { MatchResult result (λ x. pdata_length ≤ pdata_max) (λ e. (e ≡ Refusal.Pdata) × (pdata_max < pdata_length)) }
{
    if Frame::PDATA_MAX < pdata_length {
        return Err(Refusal::Pdata);
    }
    Ok(())
}

// The slot for a PData length that fits in a frame.
#[tactic(auto, unfolding(crate::specs::Slot::timeslot_of))]
pub fn timeslot(pdata_length: usize, network: Network) -> Result<u8, Refusal>
    ensures { slot_answer_of result ≡ timeslot_of pdata_length network }
{
    check_length(pdata_length)?;
    Ok(slot_of(pdata_length, network))
}

// How long after the confirmation the next request may be sent, in ms. Hops and lengths are no structs, because grelfint_earliest_send and a
// waiting request have them apart: a struct would be built for this call alone.
#[tactic(auto, unfolding(crate::specs::Slot::send_of, crate::specs::Slot::earliest_of))]
pub fn earliest_send(
    hops: u8,
    request_length: usize,
    delay: u16,
    response_hops: u8,
    response_length: usize,
    network: Network,
    broadcast: bool,
) -> Result<u32, Refusal>
    ensures { send_answer_of result ≡ send_of hops request_length delay response_hops response_length network broadcast }
{
    check_length(request_length)?;
    check_length(response_length)?;
    let request_and_delay = direction_time(hops, slot_of(request_length, network))
        + u32::from(delay);
    if broadcast {
        return Ok(request_and_delay);
    }
    let response = direction_time(response_hops, slot_of(response_length, network));
    Ok(request_and_delay + response)
}
