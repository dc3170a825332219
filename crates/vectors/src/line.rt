// Confirmations, waiting, and the serial line.
use crate::print::front;
use dpa::frame::Frame;
use framing::frame::{LONGEST_FRAMED, frame};
use timing::confirm::confirm;
use timing::slot::{Network, earliest_send};
use uart::receive::receive;
use uart::receiver::new_receiver;

// The confirmation of the DPA guide.
fn print_confirmation(rt: &impl Print) {
    let mut out = [0u8; Frame::RESPONSE_LONGEST];
    let frame = b"\x0A\x00\x07\x01\xFF\xFF";
    let length = confirm(frame, 7, 6, 6, Network::Std, &mut out).unwrap_or(0);
    let _ = println!(rt; "confirmation{}", front(&out, length));
}

// The earliest next send of document 01.
fn print_wait(rt: &impl Print) {
    let wait = earliest_send(2, 5, 20, 3, 20, Network::Std, false).unwrap_or(0);
    let _ = println!(rt; "earliest send {wait}");
}

// The message of the DPA guide on the serial line.
fn print_framed(rt: &impl Print) {
    let mut out = [0u8; LONGEST_FRAMED];
    let length = frame(b"\x2F\x00\x05\x01\xFF\xFF\x00\x7E\x7D", &mut out).unwrap_or(0);
    let _ = println!(rt; "framed{}", front(&out, length));
}

// What was framed, received by a node.
fn print_received(rt: &impl Print) {
    let received = receive(
        new_receiver(false),
        b"\x7E\x2F\x00\x05\x01\xFF\xFF\x00\x7D\x5E\x7D\x5D\x7D\x5E\x7E",
    );
    let _ = println!(rt; "received{}", front(&received.frame, received.length));
}

// A frame that ends after an escape.
fn print_cut(rt: &impl Print) {
    let cut = receive(new_receiver(false), b"\x7E\x7D\x7E");
    let _ = println!(rt; "7E 7D 7E, cause {}", cut.cause);
}

pub fn print_line(rt: &impl Print) {
    print_confirmation(rt);
    print_wait(rt);
    print_framed(rt);
    print_received(rt);
    print_cut(rt);
}
