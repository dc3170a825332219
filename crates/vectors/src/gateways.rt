// Histories of a gateway: bonds, requests and releases. Times are in ms.
use crate::print::front;
use dpa::frame::Frame;
use gateway::bonding::{bond, gateway_start};
use gateway::record::{Gateway, GatewayAnswer};
use gateway::sending::{release, send};
use queue::record::QUEUE_SIZE;

#[derive(Clone, Copy)]
struct Request {
    hops: u8,
    response_hops: u8,
    delay: u16,
    frame: &'static [u8],
}

// The request of the confirmation.
const GUIDE: Request = Request {
    hops: 6,
    response_hops: 6,
    delay: 20,
    frame: b"\x0A\x00\x07\x01\xFF\xFF",
};

const TO_NODE_1: Request = Request {
    hops: 2,
    response_hops: 3,
    delay: 20,
    frame: b"\x01\x00\x71\x00\xFF\xFF\x01\x00\x00\x00\x64",
};

const TO_NODE_2: Request = Request {
    frame: b"\x02\x00\x71\x00\xFF\xFF\x01\x00\x00\x00\x64",
    ..TO_NODE_1
};

const TO_NODE_5: Request = Request {
    frame: b"\x05\x00\x71\x00\xFF\xFF\x01\x00\x00\x00\x64",
    ..TO_NODE_1
};

const TO_ALL: Request = Request {
    frame: b"\xFF\x00\x71\x00\xFF\xFF\x01\x00\x00\x00\x64",
    ..TO_NODE_1
};

// What is done with the gateway.
#[derive(Clone, Copy)]
enum Row {
    // A bond is added, and the number of bonds printed.
    Bond(u16),
    // A request comes at a time, and nothing is printed.
    Quiet(Request, u64),
    // A request comes at a time, and its refusal is printed after this text.
    Send(&'static str, Request, u64),
    // A release at a time; the frame and its confirmation are printed, or nothing.
    Release(u64),
}

fn print_bonds(rt: &impl Print, gateway: Gateway, address: u16) -> Gateway {
    let bonded = bond(gateway, address);
    let _ = println!(rt; "bonds {}", bonded.count);
    bonded.gateway
}

fn print_release(rt: &impl Print, gateway: Gateway, time: u64) -> Gateway {
    let mut out = [0u8; Frame::RESPONSE_LONGEST];
    let released = release(gateway, time, &mut out);
    let _ = println!(rt;
        "release at {time}:{}",
        front(&released.frame, released.frame_length)
    );
    let _ = println!(rt; "confirmation{}", front(&out, released.length));
    released.gateway
}

fn send_at(gateway: Gateway, request: Request, time: u64) -> GatewayAnswer {
    let Request {
        hops,
        response_hops,
        delay,
        frame,
    } = request;
    send(gateway, frame, hops, response_hops, delay, time)
}

fn print_send(
    rt: &impl Print,
    gateway: Gateway,
    text: &str,
    request: Request,
    time: u64,
) -> Gateway {
    let sent = send_at(gateway, request, time);
    let _ = println!(rt; "{text} {}", sent.refusal);
    sent.gateway
}

fn run_row(rt: &impl Print, gateway: Gateway, row: Row) -> Gateway {
    match row {
        Row::Bond(address) => print_bonds(rt, gateway, address),
        Row::Quiet(request, time) => send_at(gateway, request, time).gateway,
        Row::Send(text, request, time) => print_send(rt, gateway, text, request, time),
        Row::Release(time) => print_release(rt, gateway, time),
    }
}

fn run_rows(rt: &impl Print, started: Gateway, rows: &[Row]) -> Gateway {
    let mut gateway = started;
    for &row in rows {
        gateway = run_row(rt, gateway, row);
    }
    gateway
}

// The request of the confirmation, twice. The second is released 720 ms after the first.
const CONFIRMED: [Row; 6] = [
    Row::Bond(10),
    Row::Quiet(GUIDE, 1000),
    Row::Quiet(GUIDE, 1000),
    Row::Release(1000),
    Row::Release(1719),
    Row::Release(1720),
];

// A request to node 5, one to all nodes, and one to node 5. After a request to all nodes, no response is waited for.
const WAITS: [Row; 9] = [
    Row::Bond(5),
    Row::Quiet(TO_NODE_5, 900),
    Row::Quiet(TO_ALL, 950),
    Row::Quiet(TO_NODE_5, 950),
    Row::Release(1000),
    Row::Release(1379),
    Row::Release(1380),
    Row::Release(1519),
    Row::Release(1520),
];

// Requests at 999 ms, when the queue is full with requests to node 1 that came at 1000 ms: to a node that is not bonded, to node 1, and
// after a release.
const REFUSALS: [Row; 4] = [
    Row::Send("no bond, no place, time 999, refusal", TO_NODE_2, 999),
    Row::Send("no place, time 999, refusal", TO_NODE_1, 999),
    Row::Release(1000),
    Row::Send("time 999, refusal", TO_NODE_1, 999),
];

pub fn print_gateways(rt: &impl Print) {
    run_rows(rt, gateway_start(false, 7), &CONFIRMED);
    run_rows(rt, gateway_start(false, 7), &WAITS);
    let bonded = run_rows(rt, gateway_start(true, 0), &[Row::Bond(1)]);
    let full = run_rows(rt, bonded, &[Row::Quiet(TO_NODE_1, 1000); QUEUE_SIZE]);
    run_rows(rt, full, &REFUSALS);
}
