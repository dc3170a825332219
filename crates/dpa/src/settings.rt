// The settings that a node is started with.
ghost use Rattle.std.specs.Prelude.{◌≡◌};
ghost use Rattle.dpa.specs.Settings.{step_ok, node_address, address_ok, settings_ok};

use crate::frame::Frame;

// The highest address that a node can have.
pub const LAST_ADDRESS: u16 = 239;

// The highest number of lamps that a node can have.
pub const MAX_LAMPS: u8 = 32;

#[repr(C)]
#[derive(Clone, Copy, Default)]
pub struct Settings {
    pub address: u16,
    pub hwpid: u16,
    pub dpa_value: u8,
    pub lamp_count: u8,
    pub step: u8,
}

// Whether a node can have this address.
pub fn node_address(address: u16) -> bool
    ensures { result ≡ node_address address }
{
    if address < 1 {
        return false;
    }
    address <= LAST_ADDRESS
}

// Whether a request can have this address: a node's, or the broadcast address.
pub fn address_ok(address: u16) -> bool
    ensures { result ≡ address_ok address }
{
    if address == Frame::BROADCAST {
        return true;
    }
    node_address(address)
}

// Whether a dimming step is valid: the valid steps are the divisors of 100.
pub fn step_ok(step: u8) -> bool
    ensures { result ≡ step_ok step }
{
    if step == 0 {
        return false;
    }
    100 % step == 0
}

// Whether every setting is in its range.
pub fn settings_ok(settings: Settings) -> bool
    ensures { result ≡ settings_ok settings }
{
    if !node_address(settings.address) {
        return false;
    }
    if settings.lamp_count < 1 {
        return false;
    }
    if MAX_LAMPS < settings.lamp_count {
        return false;
    }
    step_ok(settings.step)
}
