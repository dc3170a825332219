// The sizes of a node's memories, in bytes.
pub const EEPROM_SIZE: usize = 192;

pub const RAM_SIZE: usize = 48;

pub const EXTERNAL_SIZE: usize = 16384;
