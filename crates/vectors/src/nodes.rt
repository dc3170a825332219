// A node with address 1, three lamps and dimming step 1, and what it answers.
use crate::print::front;
use batch::fault::NONE;
use dpa::frame::Frame;
use dpa::pnum;
use dpa::refusal::status_of;
use dpa::settings::Settings;
use dpa::sizes::{EEPROM_SIZE, EXTERNAL_SIZE};
use handler::request::handle_request;
use memory::view::{view, view_status};
use node::record::Node;
use node::start::start;
use outcome::answer::RequestAnswer;

const SETTINGS: Settings = Settings {
    address: 1,
    hwpid: 0x2471,
    dpa_value: 0,
    lamp_count: 3,
    step: 1,
};

// What is done with the node.
#[derive(Clone, Copy)]
enum Row {
    // It gets a request, and nothing is printed.
    Quiet(&'static [u8]),
    // It gets a request with this name, and the response is printed.
    Request(&'static str, &'static [u8]),
    // A view with this name of a peripheral from a start on, of so many bytes.
    View(&'static str, u8, usize, usize),
    // The lamps are printed.
    Lamps,
}

// The first three requests fill the memories, and the one after the keep examples sets the lamps back.
const ROWS: [Row; 29] = [
    Row::Quiet(b"\x01\x00\x03\x01\xFF\xFF\xBE\xE1\xE2"),
    Row::Quiet(b"\x01\x00\x04\x03\xFF\xFF\xBE\x00\xA1\xA2"),
    Row::Quiet(b"\x01\x00\x04\x03\xFF\xFF\xFF\x3F\xAF"),
    Row::View("view 03 at 190, 2", pnum::EEPROM, 190, 2),
    Row::View("view 04 at 190, 2", pnum::EXTERNAL, 190, 2),
    Row::View("view 04 at 3FFF, 1", pnum::EXTERNAL, 0x3FFF, 1),
    Row::View("view 04 at 3FFF, 2", pnum::EXTERNAL, 0x3FFF, 2),
    Row::View("view 03 at 192, 0", pnum::EEPROM, 192, 0),
    Row::View("view 05 at 0, 1", pnum::RAM, 0, 1),
    Row::Request(
        "set",
        b"\x01\x00\x71\x00\xFF\xFF\x05\x00\x00\x00\x0A\xE4\x02",
    ),
    Row::Request(
        "raise",
        b"\x01\x00\x71\x01\x71\x24\x03\x00\x00\x00\x8A\x03\x32",
    ),
    Row::Lamps,
    Row::Request(
        "keep FF 01, FF 8A, 7F",
        b"\x01\x00\x71\x01\xFF\xFF\x07\x00\x00\x00\xFF\x01\xFF\x8A\x7F",
    ),
    Row::Lamps,
    Row::Request(
        "keep FF 02 in a batch",
        b"\x01\x00\x02\x05\xFF\xFF\x0B\x71\x02\xFF\xFF\x02\x00\x00\x00\xFF\x02\x00",
    ),
    Row::Lamps,
    Row::Quiet(b"\x01\x00\x71\x00\xFF\xFF\x07\x00\x00\x00\x94\x03\x32\xE4\x02"),
    Row::Request("external 3FFF, 1", b"\x01\x00\x04\x02\xFF\xFF\xFF\x3F\x01"),
    Row::Request("external 3FFF, 2", b"\x01\x00\x04\x02\xFF\xFF\xFF\x3F\x02"),
    Row::Request("batch 04 00", b"\x01\x00\x02\x05\xFF\xFF\x04\x00"),
    Row::Request("batch 03", b"\x01\x00\x02\x05\xFF\xFF\x03"),
    Row::Request(
        "batch 05 71 3E FF",
        b"\x01\x00\x02\x05\xFF\xFF\x05\x71\x3E\xFF",
    ),
    Row::Request(
        "batch 05 71 3E FF FF",
        b"\x01\x00\x02\x05\xFF\xFF\x05\x71\x3E\xFF\xFF",
    ),
    Row::Request("batch 00 00", b"\x01\x00\x02\x05\xFF\xFF\x00\x00"),
    Row::Request("batch 00 00 to all", b"\xFF\x00\x02\x05\xFF\xFF\x00\x00"),
    Row::Request(
        "broadcast, lamp 1 to 7",
        b"\xFF\x00\x71\x00\xFF\xFF\x02\x00\x00\x00\x07",
    ),
    Row::Lamps,
    Row::Request(
        "broadcast, keep FF 03 for lamp 2",
        b"\xFF\x00\x71\x00\xFF\xFF\x04\x00\x00\x00\xFF\x03",
    ),
    Row::Lamps,
];

// A node and its memories.
#[derive(Drop)]
struct Board {
    node: Node,
    eeprom: [u8; EEPROM_SIZE],
    external: [u8; EXTERNAL_SIZE],
}

impl Board {
    fn send(&mut self, frame: &[u8], response: &mut [u8]) -> RequestAnswer {
        let answer = handle_request(
            self.node,
            frame,
            &mut self.eeprom,
            &mut self.external,
            response,
        );
        self.node = answer.node;
        answer
    }

    // Sends a request and prints the response, after the reason and the place if the request has a list that cannot be read.
    fn print_request(&mut self, rt: &impl Print, name: &str, frame: &[u8]) {
        let mut out = [0u8; Frame::RESPONSE_LONGEST];
        let answer = self.send(frame, &mut out);
        let RequestAnswer { reason, place, .. } = answer;
        let response = front(&out, answer.length);
        let _ = match reason {
            NONE => println!(rt; "{name}{response}"),
            _ => println!(rt; "{name}, reason {reason} at {place}:{response}"),
        };
    }

    // Prints a view's refusal and its bytes.
    fn print_view(&self, rt: &impl Print, name: &str, pnum: u8, start: usize, count: usize) {
        let status = status_of(view_status(&self.eeprom, &self.external, pnum, start, count));
        let bytes = view(&self.eeprom, &self.external, pnum, start, count);
        let _ = println!(rt; "{name} {status}{}", front(bytes, count));
    }

    // Prints the level and seconds of the first three lamps.
    fn print_lamps(&self, rt: &impl Print) {
        let _ = print!(rt; "lamps");
        for lamp in &self.node.lamps[..3] {
            let _ = print!(rt; " {} {}", lamp.level, lamp.seconds);
        }
        let _ = println!(rt);
    }

    fn run(&mut self, rt: &impl Print, row: Row) {
        match row {
            Row::Quiet(frame) => {
                self.send(frame, &mut [0u8; Frame::RESPONSE_LONGEST]);
            }
            Row::Request(name, frame) => self.print_request(rt, name, frame),
            Row::View(name, pnum, start, count) => self.print_view(rt, name, pnum, start, count),
            Row::Lamps => self.print_lamps(rt),
        }
    }
}

pub fn print_nodes(rt: &impl Print) {
    let Ok(node) = start(SETTINGS) else {
        return;
    };
    let mut board = Board {
        node,
        eeprom: [0; EEPROM_SIZE],
        external: [0; EXTERNAL_SIZE],
    };
    for row in ROWS {
        board.run(rt, row);
    }
}
