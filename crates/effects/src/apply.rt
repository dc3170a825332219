// The lamps and the memories after the effect of a request.
ghost use Rattle.std.specs.Prelude.{◌≡◌};
ghost use Rattle.node.specs.State.{SoundState};
ghost use Rattle.outcome.specs.Effect.{after_effect, EffectKnown};
ghost use Rattle.outcome.specs.Seen.{state_with, request_seen, SameLent};
ghost use Rattle.effects.specs.Walk.{start_walk};

use crate::lamps::change_lamps;
use crate::walk::{Rest, Walk, walk_at};
use dpa::node_set::NODE_SET_SIZE;
use lights::lamp::{LAMPS, Lamp};
use lights::walk::lamps_after;
use node::record::ReadOnly;
use outcome::memories::Memories;
use outcome::reply::Effect;
use outcome::request::Request;

// The walk at the start of an effect.
fn start_walk(effect: Effect) -> Walk
    ensures { result ≡ start_walk effect }
{
    match effect {
        Effect::Nothing => walk_at(Rest::Ended, 0),
        Effect::Lamps | Effect::Alone => walk_at(Rest::Whole, 0),
        Effect::Batch => walk_at(Rest::Entries, 0),
        Effect::Selective => walk_at(Rest::Entries, NODE_SET_SIZE),
    }
}

// The lamps after the effect of a request; the memories change in place. The node comes in its parts, because a record that is passed whole
// is copied.
pub fn apply(
    fixed: ReadOnly,
    lamps: [Lamp; LAMPS],
    effect: Effect,
    request: Request,
    memories: &mut Memories,
) -> [Lamp; LAMPS]
    requires { SoundState (state_with fixed lamps memories.old) × EffectKnown effect (request_seen request) }
    ensures state { state_with fixed result memories.new
        ≡ after_effect effect (request_seen request.entry) (state_with fixed lamps memories.old) }
    ensures lent { SameLent memories.old memories.new }
{
    let settings = fixed.settings;
    // A request to the lights needs no walk over entries.
    if let Effect::Lamps = effect {
        return lamps_after(settings, request.header.pcmd, request.pdata, lamps);
    }
    change_lamps(settings, request, lamps, start_walk(effect), memories)
}
