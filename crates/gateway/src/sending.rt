// The calls on the send queue: a request is put into it, and released when the air is free.
ghost use Rattle.std.specs.Prelude.{◌≡◌, true, List, ℕ, ◌≤◌, length};
ghost use Rattle.dpa.specs.Frame.{header_size, longest_response};
ghost use Rattle.dpa.specs.Refusal.{refusal_of};
ghost use Rattle.bonds.specs.Bonds.{can_send};
ghost use Rattle.queue.specs.Queue.{outgoing, nadr_of, time_max, due};
ghost use Rattle.gateway.specs.Gateway.{gateway_ok, send_refusal, send_request, release_refusal, release_result, not_released, release_effect, release_of};

use crate::record::{Gateway, GatewayAnswer, ReleaseAnswer};
use bonds::addresses::{BondChange, can_change};
use dpa::frame::Frame;
use dpa::refusal::{NONE, Refusal};
use queue::places::placed;
use queue::updates::confirm_waiting;

// Returns whether a frame can be sent: to all nodes, or to a bonded one.
#[tactic(auto, unfolding(bonds::specs::Bonds::can_send))]
fn can_send(bonds: &[u8], frame: &[u8]) -> bool
    requires { header_size ≤ length frame.now }
    ensures { result ≡ can_send bonds.now (nadr_of frame.now) }
{
    let header = Frame::read(frame);
    if header.nadr == Frame::BROADCAST {
        return true;
    }
    // A bond that could be removed.
    can_change(BondChange::Remove, bonds, header.nadr)
}

// Tests whether a request can be put into the queue.
#[tactic(auto, using(dpa::proofs::Headers::fits_sizes), unfolding(crate::specs::Gateway::send_refusal))]
fn send_refusal(gateway: &Gateway, frame: &[u8], time: u64) -> Result<(), Refusal>
    ensures { refusal_of result ≡ send_refusal gateway.now frame.now time }
{
    let bonds = gateway.sound_bonds()?;
    if !Frame::fits(frame.len()) {
        return Err(Refusal::Frame);
    }
    if !can_send(&bonds.bytes, frame) {
        return Err(Refusal::Address);
    }
    if gateway.queue.is_full() {
        return Err(Refusal::Full);
    }
    if !gateway.queue.clock_ok(time) {
        return Err(Refusal::Time);
    }
    Ok(())
}

// Puts a request into the queue.
#[tactic(auto, using(queue::proofs::Changes::numbered), unfolding(crate::specs::Gateway::send_request))]
pub fn send(
    gateway: Gateway,
    frame: &[u8],
    hops: u8,
    response_hops: u8,
    delay: u16,
    time: u64,
) -> GatewayAnswer
    ensures { result ≡ send_request gateway (outgoing frame.now hops response_hops delay) time }
{
    if let Err(refusal) = send_refusal(&gateway, frame, time) {
        return GatewayAnswer {
            refusal: u8::from(refusal),
            gateway,
        };
    }
    let place = placed(frame, hops, response_hops, delay);
    let queue = gateway.queue.with_request(place, time);
    GatewayAnswer {
        refusal: NONE,
        gateway: Gateway { queue, ..gateway },
    }
}

// Tests whether a release can be answered.
#[tactic(auto, unfolding(crate::specs::Gateway::release_refusal))]
fn release_refusal(gateway: &Gateway, time: u64, size: usize) -> Result<(), Refusal>
    ensures { refusal_of result ≡ release_refusal gateway.now time size }
{
    gateway.sound_bonds()?;
    if size < Frame::RESPONSE_LONGEST {
        return Err(Refusal::Response);
    }
    if !gateway.queue.clock_ok(time) {
        return Err(Refusal::Time);
    }
    Ok(())
}

// The answer of a release that releases nothing.
fn not_released(refusal: u8, gateway: Gateway) -> ReleaseAnswer
    ensures { (o : List ℕ) → release_result result o ≡ not_released refusal gateway o }
{
    ReleaseAnswer {
        refusal,
        released: false,
        length: 0,
        frame_length: 0,
        frame: [0; Frame::LONGEST],
        gateway,
    }
}

// Releases the oldest request and writes its confirmation.
#[tactic(auto, using(queue::proofs::Changes::due_facts, crate::proofs::Calls::gateway_queue, crate::proofs::Calls::queue_rule))]
fn release_oldest(gateway: Gateway, time: u64, out: &mut [u8]) -> ReleaseAnswer
    requires { (gateway_ok gateway ≡ true) × (due gateway.queue.count gateway.queue.next time ≡ true) × (time ≤ time_max) × (longest_response ≤ length out.old) }
    ensures { release_result result out.new ≡ release_effect gateway time out.old }
{
    let waiting = gateway.queue.oldest();
    let network = gateway.queue.network_type();
    let length = confirm_waiting(network, gateway.queue.dpa_value, waiting, out);
    ReleaseAnswer {
        refusal: NONE,
        released: true,
        length,
        frame_length: usize::from(waiting.length),
        frame: waiting.frame,
        gateway: Gateway {
            queue: gateway.queue.without_oldest(time),
            ..gateway
        },
    }
}

// Releases the oldest request if one waits and it is not too early; otherwise only records the time.
#[tactic(auto, using(queue::proofs::Changes::numbered, queue::proofs::Changes::time_facts, crate::proofs::Calls::release_facts), unfolding(crate::specs::Gateway::release_of, crate::specs::Gateway::release_effect))]
pub fn release(gateway: Gateway, time: u64, out: &mut [u8]) -> ReleaseAnswer
    ensures { release_result result out.new ≡ release_of gateway time out.old }
{
    if let Err(refusal) = release_refusal(&gateway, time, out.len()) {
        return not_released(u8::from(refusal), gateway);
    }
    if !gateway.queue.is_due(time) {
        let queue = gateway.queue.with_time(time);
        return not_released(NONE, Gateway { queue, ..gateway });
    }
    release_oldest(gateway, time, out)
}
