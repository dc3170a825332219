// The record of a send queue.
use dpa::frame::Frame;

// Requests that a queue can hold.
pub const QUEUE_SIZE: usize = 8;

// A request in the queue. The frame has zeros from `length` on.
// C interface (`grelfint_waiting`): the fields and their order, so the frame has its length beside it.
#[repr(C)]
#[derive(Clone, Copy)]
pub struct Waiting {
    pub delay: u16,
    pub length: u8,
    pub hops: u8,
    pub response_hops: u8,
    pub frame: [u8; Frame::LONGEST],
}

// The oldest request is places[0]; places from the count on are zero. Times are in ms: `last` is the last time that was given and not
// refused, `next` the earliest time of the next release.
// C interface (`grelfint_send_queue`): the fields, so the network type is a number, and the places have their count beside them.
#[repr(C)]
#[derive(Clone, Copy)]
pub struct SendQueue {
    pub last: u64,
    pub next: u64,
    pub network: u8,
    pub dpa_value: u8,
    pub count: u8,
    pub places: [Waiting; QUEUE_SIZE],
}
