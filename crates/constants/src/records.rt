// Numbers in the answers and records of the calls.
use crate::print_all;
use batch::fault::{self, Reason};
use lights::{lamp, power};
use node::frc::{self, FrcValue};
use queue::rule::TIME_MAX;
use step::kind::Kind;
use timing::slot::{Network, SLOT_UNIT_MS, WAIT_MAX};
use uart::receiver::{DropCause, Event, NO_CAUSE};

const RECORDS: [(&str, u64); 33] = [
    ("FRC_ON", frc::ON as u64),
    ("FRC_ALARM", frc::ALARM as u64),
    ("FRC_NOT_IMPLEMENTED", FrcValue::NotImplemented as u64),
    ("FRC_NO", FrcValue::No as u64),
    ("FRC_YES", FrcValue::Yes as u64),
    ("LEVEL_MAX", lamp::MAX_LEVEL as u64),
    ("SECONDS_MAX", lamp::MAX_SECONDS as u64),
    ("POWER_KEEP", power::KEEP as u64),
    ("POWER_TIMED", power::BIT_7 as u64),
    ("TIME_SECONDS", power::BIT_7 as u64),
    ("REASON_NONE", fault::NONE as u64),
    ("REASON_SHORT", Reason::Short as u64),
    ("REASON_PAST_END", Reason::PastEnd as u64),
    ("REASON_UNCLOSED", Reason::Unclosed as u64),
    ("REASON_TRAILING", Reason::Trailing as u64),
    ("KIND_SET", Kind::Set as u64),
    ("KIND_RAISE", Kind::Raise as u64),
    ("KIND_LOWER", Kind::Lower as u64),
    ("KIND_RAM", Kind::WriteRam as u64),
    ("KIND_EEPROM", Kind::WriteEeprom as u64),
    ("EVENT_NONE", Event::None as u64),
    ("EVENT_FRAME", Event::Frame as u64),
    ("EVENT_DROPPED", Event::Dropped as u64),
    ("CAUSE_NONE", NO_CAUSE as u64),
    ("CAUSE_TOO_LONG", DropCause::TooLong as u64),
    ("CAUSE_CUT", DropCause::Cut as u64),
    ("CAUSE_SHORT", DropCause::Short as u64),
    ("CAUSE_CHECK_BYTE", DropCause::CheckByte as u64),
    ("SLOT_MS", SLOT_UNIT_MS as u64),
    ("NETWORK_STD", Network::Std as u64),
    ("NETWORK_STD_LP", Network::StdLp as u64),
    ("TIME_MAX", TIME_MAX),
    ("WAIT_MAX", WAIT_MAX),
];

pub fn print_records(rt: &impl Print) {
    print_all(rt, &RECORDS);
}
