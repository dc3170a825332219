// The faults of steps. A fault is the refusal that it gives.
ghost use Rattle.std.specs.Prelude.{◌≡◌};
ghost use Rattle.dpa.specs.Refusal.{refusal_of};
ghost use Rattle.memory.specs.Block.{size_of};
ghost use Rattle.book.specs.Steps.{steps_of};
ghost use Rattle.step.specs.Step.{lamp_fault, byte_fault, step_fault, first_bad_from};
ghost use Rattle.step.specs.Seen.{check_seen};

use crate::kind::{Kind, is_lamp};
use book::step::{Step, Steps};
use dpa::refusal::Refusal;
use dpa::settings::MAX_LAMPS;
use lights::lamp::MAX_LEVEL;
use lights::power::time_ok;
use memory::block::Memory;

// The fault of a lamp step.
#[tactic(auto, unfolding(crate::specs::Step::lamp_fault, crate::specs::Step::step_time_ok))]
fn lamp_fault(step: Step) -> Result<(), Refusal>
    ensures { refusal_of result ≡ lamp_fault step }
{
    if MAX_LAMPS <= step.target {
        return Err(Refusal::StepTarget);
    }
    if MAX_LEVEL < step.value {
        return Err(Refusal::StepValue);
    }
    if step.time != 0 && !time_ok(step.time) {
        return Err(Refusal::StepTime);
    }
    Ok(())
}

// The fault of a step that writes a byte of a memory.
#[tactic(auto, unfolding(crate::specs::Step::byte_fault))]
fn byte_fault(memory: Memory, step: Step) -> Result<(), Refusal>
    ensures { refusal_of result ≡ byte_fault (size_of memory) step }
{
    if memory.size() <= usize::from(step.target) {
        return Err(Refusal::StepTarget);
    }
    if step.time != 0 {
        return Err(Refusal::StepTime);
    }
    Ok(())
}

// The fault of the first bad part of a step.
#[tactic(auto, unfolding(crate::specs::Step::step_fault))]
pub fn step_fault(step: Step) -> Result<(), Refusal>
    ensures { refusal_of result ≡ step_fault step }
{
    // Most steps are a lamp's: tested first, a scene of 64 steps compiles in a tenth less time.
    if is_lamp(step.kind) {
        return lamp_fault(step);
    }
    match Kind::try_from(step.kind)? {
        Kind::WriteRam => byte_fault(Memory::Ram, step),
        Kind::WriteEeprom => byte_fault(Memory::Eeprom, step),
        Kind::Set | Kind::Raise | Kind::Lower => lamp_fault(step),
    }
}

// The number of the first bad step, and the refusal for its first bad part.
#[derive(Clone, Copy, Debug, PartialEq, Eq)]
pub struct BadStep {
    pub step: u8,
    pub refusal: Refusal,
}

// Checks the steps up to the first bad one.
#[tactic(auto, using(crate::proofs::GoodSteps::next_step, crate::proofs::GoodSteps::last_step, crate::proofs::GoodSteps::refused))]
pub fn check_steps(steps: Steps) -> Result<(), BadStep>
    ensures { check_seen result ≡ first_bad_from 0 (steps_of steps.entry) }
{
    for i in 0..steps.count {
        if let Err(refusal) = step_fault(steps.step(i)) {
            return Err(BadStep {
                step: i as u8,
                refusal,
            });
        }
    }
    Ok(())
}
