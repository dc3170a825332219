// The memories that requests read and change.

// The RAM of the node, its EEPROM and its external memory, as they are lent for a call.
#[derive(Drop)]
pub struct Memories<'a> {
    pub ram: &'a mut [u8],
    pub eeprom: &'a mut [u8],
    pub external: &'a mut [u8],
}
