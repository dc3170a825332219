// Counts, sizes and offsets.
use crate::print_all;
use batch::entry::HEAD_SIZE;
use bonds::addresses::BONDS_SIZE;
use book::locations::{LOCATION_LENGTH, LONGEST_BOOK, SCENES_MAX};
use book::step::{STEP_LENGTH, STEPS_MAX};
use dpa::frame::Frame;
use dpa::node_set::NODE_SET_SIZE;
use dpa::sizes::{EEPROM_SIZE, EXTERNAL_SIZE, RAM_SIZE};
use framing::frame::{LONGEST, LONGEST_FRAMED};
use lights::lamp::LAMPS;
use lights::power::BITMAP_SIZE;
use memory::block::Memory;
use queue::record::QUEUE_SIZE;
use scene::compile::MIN_OUTPUT;
use timing::confirm::{AT_HOPS, AT_RESPONSE_HOPS, AT_TIMESLOT, CONFIRMATION_LENGTH};

const COUNTS: [(&str, u64); 7] = [
    ("LAMPS", LAMPS as u64),
    ("SCENES", SCENES_MAX as u64),
    ("STEPS", STEPS_MAX as u64),
    ("QUEUE", QUEUE_SIZE as u64),
    ("RAM", RAM_SIZE as u64),
    ("EEPROM", EEPROM_SIZE as u64),
    ("EXTERNAL", EXTERNAL_SIZE as u64),
];

const SIZES: [(&str, u64); 16] = [
    ("FRAME_HEADER", Frame::HEADER as u64),
    ("PDATA", Frame::PDATA_MAX as u64),
    ("FRAME", Frame::LONGEST as u64),
    ("RESPONSE_HEADER", Frame::RESPONSE_HEADER as u64),
    ("RESPONSE", Frame::RESPONSE_LONGEST as u64),
    ("CONFIRMATION", CONFIRMATION_LENGTH as u64),
    ("ENTRY_HEADER", HEAD_SIZE as u64),
    ("BITMAP", BITMAP_SIZE as u64),
    ("UART_FRAME", LONGEST as u64),
    ("UART_FRAMED", LONGEST_FRAMED as u64),
    ("BOOK", LONGEST_BOOK as u64),
    ("BOOK_LOCATION", LOCATION_LENGTH as u64),
    ("BOOK_STEP", STEP_LENGTH as u64),
    ("COMPILED", MIN_OUTPUT as u64),
    ("NODE_SET", NODE_SET_SIZE as u64),
    ("BONDS", BONDS_SIZE as u64),
];

const OFFSETS: [(&str, u64); 11] = [
    ("AT_NADR", Frame::AT_NADR as u64),
    ("AT_PNUM", Frame::AT_PNUM as u64),
    ("AT_PCMD", Frame::AT_PCMD as u64),
    ("AT_HWPID", Frame::AT_HWPID as u64),
    ("AT_PDATA", Frame::HEADER as u64),
    ("AT_ERRN", Frame::AT_ERRN as u64),
    ("AT_DPA_VALUE", Frame::AT_DPA_VALUE as u64),
    ("AT_DATA", Frame::RESPONSE_HEADER as u64),
    ("AT_HOPS", AT_HOPS as u64),
    ("AT_TIMESLOT", AT_TIMESLOT as u64),
    ("AT_RESPONSE_HOPS", AT_RESPONSE_HOPS as u64),
];

// The longest blocks that one request reads or writes.
fn print_blocks(rt: &impl Print) {
    let blocks = [
        ("RAM_BLOCK", Memory::Ram.longest() as u64),
        ("EEPROM_BLOCK", Memory::Eeprom.longest() as u64),
        ("EXTERNAL_BLOCK", Memory::External.longest() as u64),
    ];
    print_all(rt, &blocks);
}

pub fn print_sizes(rt: &impl Print) {
    print_all(rt, &COUNTS);
    print_blocks(rt);
    print_all(rt, &SIZES);
    print_all(rt, &OFFSETS);
}
