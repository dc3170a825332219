// Peripheral numbers. They are no enum: a frame may have any byte there, and the definitions (`peripheral_request`) test the number.
pub const OS: u8 = 2;

pub const EEPROM: u8 = 3;

pub const EXTERNAL: u8 = 4;

pub const RAM: u8 = 5;

pub const LIGHTS: u8 = 0x71;
