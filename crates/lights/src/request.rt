// Requests to the lights peripheral: whether a request changes lamps, and its answer.
ghost use Rattle.std.specs.Prelude.{◌≡◌, List, true, ◌≤◌, length};
ghost use Rattle.dpa.specs.Frame.{pdata_max};
ghost use Rattle.dpa.specs.Reply.{outcome_seen, reply_in_buffer};
ghost use Rattle.dpa.specs.Settings.{settings_ok, max_lamps};
ghost use Rattle.lights.specs.Lamp.{SoundLevels};
ghost use Rattle.lights.specs.Lights.{well_formed, changes_lamps, enumerate_lamps, lights_request};

use crate::apply::Command;
use crate::bitmap::{mask_of, selected_count};
use crate::lamp::{LAMPS, Lamp};
use crate::levels::write_levels;
use crate::power::{BITMAP_SIZE, power_entries_ok};
use crate::rounding::Rounding;
use dpa::error::ErrN;
use dpa::settings::Settings;

// PCMD of each request.
pub const SET: u8 = 0x00;

pub const RAISE: u8 = 0x01;

pub const LOWER: u8 = 0x02;

pub const ENUMERATE: u8 = 0x3E;

// Whether PData of set, raise and lower is the bitmap and a valid power entry for each selected lamp.
#[tactic(auto, using(crate::proofs::Rules::for_well_formed))]
fn well_formed(pdata: &[u8]) -> bool
    ensures { result ≡ well_formed pdata.now }
{
    if pdata.len() < BITMAP_SIZE {
        return false;
    }
    power_entries_ok(pdata, selected_count(mask_of(pdata)))
}

// Whether a request changes lamps.
#[tactic(auto, unfolding(crate::specs::Lights::changes_lamps, crate::specs::Lights::command_read))]
pub fn changes_lamps(pcmd: u8, pdata: &[u8]) -> bool
    ensures { result ≡ changes_lamps pcmd pdata.now }
{
    Command::try_from(pcmd).is_ok() && well_formed(pdata)
}

// The answer to enumerate is the lamp count, whatever the lamps are.
#[tactic(auto, unfolding(crate::specs::Lights::enumerate_lamps))]
fn enumerate(settings: Settings, pdata: &[u8], out: &mut [u8]) -> Result<usize, ErrN>
    requires { max_lamps ≤ length out.old }
    ensures { (ls : List Lamp) → outcome_seen (enumerate_lamps settings pdata.now ls).after result out.new
        ≡ reply_in_buffer (enumerate_lamps settings pdata.now ls) out.old }
{
    if !pdata.is_empty() {
        return Err(ErrN::DataLen);
    }
    out[0] = settings.lamp_count;
    Ok(1)
}

// Answers a request: the response data is written to the front of out. The lamps are left to the caller. The answer to set, raise and
// lower is the same for each command: the levels before the change.
#[tactic(auto, using(crate::proofs::Rules::for_request), unfolding(crate::specs::Lights::lights_request))]
pub fn request(
    settings: Settings,
    lamps: [Lamp; LAMPS],
    pcmd: u8,
    pdata: &[u8],
    out: &mut [u8],
) -> Result<usize, ErrN>
    requires { (settings_ok settings ≡ true) × SoundLevels settings.lamp_count lamps × (pdata_max ≤ length out.old) }
    ensures { outcome_seen (lights_request settings pcmd pdata.now lamps).after result out.new
        ≡ reply_in_buffer (lights_request settings pcmd pdata.now lamps) out.old }
{
    if pcmd == ENUMERATE {
        return enumerate(settings, pdata, out);
    }
    Command::try_from(pcmd)?;
    if !well_formed(pdata) {
        return Err(ErrN::Data);
    }
    Ok(write_levels(Rounding::new(settings), pdata, lamps, out))
}
