// Refusals, ErrN, PNUM, PCMD and addresses.
use crate::print_all;
use batch::list::BATCH;
use batch::selective::SELECTIVE_BATCH;
use checksum::check::CODE_CHECK;
use dpa::error::{self, ErrN};
use dpa::frame::{Frame, RESPONSE_BIT};
use dpa::pnum;
use dpa::refusal::{self, Refusal};
use dpa::settings::LAST_ADDRESS;
use lights::request;
use memory::block::Memory;

const REFUSALS: [(&str, u64); 20] = [
    ("OK", refusal::NONE as u64),
    ("REFUSED_NODE", Refusal::Node as u64),
    ("REFUSED_FRAME", Refusal::Frame as u64),
    ("REFUSED_RESPONSE", Refusal::Response as u64),
    ("REFUSED_MEMORY", Refusal::Memory as u64),
    ("REFUSED_PDATA", Refusal::Pdata as u64),
    ("REFUSED_VIEW", Refusal::View as u64),
    ("REFUSED_BLOCK", Refusal::Block as u64),
    ("REFUSED_RANGE", Refusal::Range as u64),
    ("REFUSED_BOOK", Refusal::Book as u64),
    ("REFUSED_SCENE", Refusal::Scene as u64),
    ("REFUSED_STEP_KIND", Refusal::StepKind as u64),
    ("REFUSED_STEP_TARGET", Refusal::StepTarget as u64),
    ("REFUSED_STEP_VALUE", Refusal::StepValue as u64),
    ("REFUSED_STEP_TIME", Refusal::StepTime as u64),
    ("REFUSED_OUTPUT", Refusal::Output as u64),
    ("REFUSED_FRAMED", Refusal::Framed as u64),
    ("REFUSED_ADDRESS", Refusal::Address as u64),
    ("REFUSED_FULL", Refusal::Full as u64),
    ("REFUSED_TIME", Refusal::Time as u64),
];

const ERRORS: [(&str, u64); 8] = [
    ("ERRN_NONE", error::NONE as u64),
    ("ERRN_FAIL", ErrN::Fail as u64),
    ("ERRN_PCMD", ErrN::Pcmd as u64),
    ("ERRN_PNUM", ErrN::Pnum as u64),
    ("ERRN_ADDR", ErrN::Addr as u64),
    ("ERRN_DATA_LEN", ErrN::DataLen as u64),
    ("ERRN_DATA", ErrN::Data as u64),
    ("ERRN_HWPID", ErrN::Hwpid as u64),
];

const PERIPHERALS: [(&str, u64); 5] = [
    ("PNUM_OS", pnum::OS as u64),
    ("PNUM_EEPROM", pnum::EEPROM as u64),
    ("PNUM_EXTERNAL", pnum::EXTERNAL as u64),
    ("PNUM_RAM", pnum::RAM as u64),
    ("PNUM_LIGHTS", pnum::LIGHTS as u64),
];

const COMMANDS: [(&str, u64); 8] = [
    ("PCMD_OS_BATCH", BATCH as u64),
    ("PCMD_OS_CODE_CHECK", CODE_CHECK as u64),
    ("PCMD_OS_SELECTIVE_BATCH", SELECTIVE_BATCH as u64),
    ("PCMD_LIGHTS_SET", request::SET as u64),
    ("PCMD_LIGHTS_RAISE", request::RAISE as u64),
    ("PCMD_LIGHTS_LOWER", request::LOWER as u64),
    ("PCMD_LIGHTS_ENUMERATE", request::ENUMERATE as u64),
    ("PCMD_RESPONSE", RESPONSE_BIT as u64),
];

const ADDRESSES: [(&str, u64); 3] = [
    ("NADR_BROADCAST", Frame::BROADCAST as u64),
    ("ADDRESS_MAX", LAST_ADDRESS as u64),
    ("HWPID_ANY", Frame::ANY_HWPID as u64),
];

fn print_memory_commands(rt: &impl Print) {
    let commands = [
        ("PCMD_EEPROM_READ", Memory::Eeprom.read_command() as u64),
        ("PCMD_EEPROM_WRITE", Memory::Eeprom.write_command() as u64),
        ("PCMD_EXTERNAL_READ", Memory::External.read_command() as u64),
        (
            "PCMD_EXTERNAL_WRITE",
            Memory::External.write_command() as u64,
        ),
        ("PCMD_RAM_READ", Memory::Ram.read_command() as u64),
        ("PCMD_RAM_WRITE", Memory::Ram.write_command() as u64),
    ];
    print_all(rt, &commands);
}

pub fn print_numbers(rt: &impl Print) {
    print_all(rt, &REFUSALS);
    print_all(rt, &ERRORS);
    print_all(rt, &PERIPHERALS);
    print_memory_commands(rt);
    print_all(rt, &COMMANDS);
    print_all(rt, &ADDRESSES);
}
