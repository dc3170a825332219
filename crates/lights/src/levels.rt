// The levels that set, raise and lower return, in one loop over the selected lamps from the lowest on.
ghost use Rattle.std.specs.Prelude.{◌≡◌, ◌≤◌, length};
ghost use Rattle.dpa.specs.Lists.{overwrite_front};
ghost use Rattle.dpa.specs.Settings.{max_lamps};
ghost use Rattle.lights.specs.Bits.{bitmap_size, bitmap};
ghost use Rattle.lights.specs.Lamp.{SoundLevels};
ghost use Rattle.lights.specs.Lights.{levels_before};

use crate::bitmap::{lowest_lamp, mask_of, selected_count, without_lowest};
use crate::lamp::{LAMPS, Lamp};
use crate::rounding::Rounding;

// Writes the actual levels of the selected lamps to the front of out and returns how many.
pub fn write_levels(rounding: Rounding, pdata: &[u8], lamps: [Lamp; LAMPS], out: &mut [u8]) -> usize
    requires { SoundLevels rounding.settings.lamp_count lamps × (max_lamps ≤ length out.old) × (bitmap_size ≤ length pdata.now) }
    ensures { (result ≡ length (levels_before rounding.settings rounding.settings.lamp_count (bitmap pdata.now) lamps))
        × (out.new ≡ overwrite_front (levels_before rounding.settings rounding.settings.lamp_count (bitmap pdata.now) lamps) out.old) }
{
    let mask = mask_of(pdata);
    let mut remaining = mask;
    for level in &mut out[..selected_count(mask)] {
        // An unimplemented lamp is off.
        let lamp = lamps[lowest_lamp(remaining)];
        *level = rounding.actual_level(lamp.level);
        remaining = without_lowest(remaining);
    }
    selected_count(mask)
}
