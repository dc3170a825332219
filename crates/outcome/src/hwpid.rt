// The HWPID test of a request and of each entry of a batch.
ghost use Rattle.std.specs.Prelude.{◌≡◌};
ghost use Rattle.outcome.specs.Request.{hwpid_matches};

use dpa::frame::Frame;
use dpa::settings::Settings;

// Whether a HWPID is the node's or the wildcard.
#[tactic(auto, unfolding(crate::specs::Request::hwpid_matches))]
pub fn hwpid_matches(settings: Settings, hwpid: u16) -> bool
    ensures { result ≡ hwpid_matches settings hwpid }
{
    (hwpid == settings.hwpid) | (hwpid == Frame::ANY_HWPID)
}
