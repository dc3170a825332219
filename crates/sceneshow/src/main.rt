// Reads a scene book from standard input, runs scene 0 on a fresh node and prints its lamps. What cannot be written is left out.
#![tactic(auto)]

use acceptance::run::run_scene;
use book::locations::LONGEST_BOOK;
use console::input::read_full;
use dpa::refusal::Refusal;
use dpa::settings::Settings;
use dpa::sizes::{EEPROM_SIZE, EXTERNAL_SIZE};
use lights::lamp::LAMPS;
use node::levels::actual_levels;
use node::record::Node;
use node::start::start;
use scene::compile::{CompileError, MIN_OUTPUT};

// The node has address 1, three lamps and dimming step 1.
const SETTINGS: Settings = Settings {
    address: 1,
    hwpid: 0x2471,
    dpa_value: 0,
    lamp_count: 3,
    step: 1,
};

// Runs scene 0, and returns the node afterwards. The memories are zeros before.
fn run_book(book: &[u8]) -> Result<Node, CompileError> {
    if LONGEST_BOOK < book.len() {
        return Err(Refusal::Book.into());
    }
    let mut eeprom = [0u8; EEPROM_SIZE];
    let mut external = [0u8; EXTERNAL_SIZE];
    let mut out = [0u8; MIN_OUTPUT];
    let fresh = start(SETTINGS)?;
    run_scene(fresh, book, 0, &mut eeprom, &mut external, &mut out)
}

fn print_lamps(rt: &impl Print, node: Node) {
    let levels = actual_levels(node).unwrap_or([0; LAMPS]);
    let _ = println!(rt; "lamp level actual left");
    let lamps = node.lamps.iter().zip(&levels);
    for (i, (lamp, actual)) in lamps.take(usize::from(SETTINGS.lamp_count)).enumerate() {
        let _ = println!(rt; "{i} {} {actual} {}", lamp.level, lamp.seconds);
    }
}

fn print_refusal(rt: &impl Print, refusal: Refusal) {
    let _ = println!(rt; "refused {}", u8::from(refusal));
}

// Reads up to one byte more than the longest book has, so that a longer input is noticed and refused. A read that fails ends the input.
fn main(rt: HostRuntime) {
    let mut buffer = [0u8; LONGEST_BOOK + 1];
    let book = read_full(&mut rt.reader(), &mut buffer).unwrap_or_else(|cut| cut.read);
    match run_book(book) {
        Ok(node) => print_lamps(&rt, node),
        Err(error) => print_refusal(&rt, error.refusal()),
    }
}
