// OS 02: batch, code check and selective batch. A list is checked to its end; its entries run later, as the effect of the request.
ghost use Rattle.std.specs.Prelude.{◌≡◌, List, ℕ, ◌≤◌, length};
ghost use Rattle.dpa.specs.Frame.{pdata_max};
ghost use Rattle.dpa.specs.Sizes.{external_size};
ghost use Rattle.node.specs.declared.record.Node.{Node};
ghost use Rattle.node.specs.State.{State, state};
ghost use Rattle.outcome.specs.Request.{batch_request, selective_request, os_request};
ghost use Rattle.outcome.specs.Effect.{os_effect};
ghost use Rattle.outcome.specs.Seen.{answer_seen, answer_in_buffer};

use batch::list::{BATCH, check_list};
use batch::selective::{SELECTIVE_BATCH, Selection, select};
use checksum::check::{CODE_CHECK, code_check};
use dpa::error::ErrN;
use outcome::reply::{Effect, ListCheck, Reply, Report, RequestReply, error_reply, list_reply};

// Checks the whole list of a batch.
#[tactic(auto, unfolding(outcome::specs::Request::batch_request, outcome::specs::Effect::on_success))]
fn batch_answer(pdata: &[u8]) -> RequestReply
    ensures { (st : State) (o : List ℕ) → answer_seen (Some result) o ≡ answer_in_buffer (batch_request pdata.now st) Effect.Batch o }
{
    if pdata.is_empty() {
        return error_reply(u8::from(ErrN::DataLen));
    }
    list_reply(ListCheck::from(check_list(pdata)), Effect::Batch)
}

// PData that is too short is an error for every node. A node that the set does not name gives no answer, not even to a broken list.
#[tactic(auto, unfolding(outcome::specs::Request::selective_request, outcome::specs::Effect::on_success))]
fn selective_answer(address: u16, pdata: &[u8]) -> Option<RequestReply>
    ensures { (st : State) (o : List ℕ) → st.node.settings.address ≡ address
        → answer_seen result o ≡ answer_in_buffer (selective_request pdata.now st) Effect.Selective o }
{
    match select(pdata, address) {
        Selection::TooShort => Some(error_reply(u8::from(ErrN::DataLen))),
        Selection::NotSelected => None,
        Selection::Selected(check) => {
            Some(list_reply(ListCheck::from(check), Effect::Selective))
        }
    }
}

// The answer to an OS request.
#[tactic(auto, unfolding(outcome::specs::Request::os_request, outcome::specs::Request::code_check_request, outcome::specs::Effect::on_success))]
pub fn os_answer(
    address: u16,
    pcmd: u8,
    pdata: &[u8],
    external: &[u8],
    out: &mut [u8],
) -> Option<RequestReply>
    requires { (length external.now ≡ external_size) × (pdata_max ≤ length out.old) }
    ensures { (n : Node) (e : List ℕ) → n.settings.address ≡ address → answer_seen result out.new
        ≡ answer_in_buffer (os_request pcmd pdata.now (state n e external.now)) (os_effect pcmd) out.old }
{
    match pcmd {
        BATCH => Some(batch_answer(pdata)),
        CODE_CHECK => {
            let checked = code_check(external, pdata, out);
            let Reply { error, length } = Reply::from(checked.and(Ok(1)));
            Some(RequestReply {
                error,
                report: Report {
                    load: checked == Ok(true),
                    ..Report::NONE
                },
                length,
                effect: Effect::Nothing,
            })
        }
        SELECTIVE_BATCH => selective_answer(address, pdata),
        _ => Some(error_reply(u8::from(ErrN::Pcmd))),
    }
}
