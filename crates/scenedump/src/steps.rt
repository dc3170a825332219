// The list of a book's scenes and their steps.
ghost use Rattle.std.specs.Prelude.{◌≡◌, true, ◌<◌};
ghost use Rattle.book.specs.Book.{scene_count, book_ok};

use book::locations::scene_steps;
use book::step::{Step, Steps};
use console::print::{Count, Hex, UPPER};
use dpa::refusal::Refusal;
use dpa::settings::MAX_LAMPS;
use dpa::sizes::{EEPROM_SIZE, RAM_SIZE};
use lights::lamp::MAX_LEVEL;
use lights::power::BIT_7;
use std::fmt::Display;
use std::{fmt, io};
use step::fault::{BadStep, check_steps, step_fault};
use step::kind::{Kind, WRITE_EEPROM, is_lamp};

// The time byte of a lamp step: none, minutes, or seconds if bit 7 is set.
#[derive(Clone, Copy)]
struct Time(u8);

impl Display for Time {
    fn fmt<W: fmt::Write>(&self, f: &mut fmt::Formatter<W>) -> fmt::Result {
        let Time(time) = *self;
        if time == 0 {
            return Ok(());
        }
        if time < BIT_7 {
            return write!(f, " for {time} min");
        }
        write!(f, " for {} s", time - BIT_7)
    }
}

// What a good step does.
#[derive(Clone, Copy)]
struct Action(Step);

impl Display for Action {
    fn fmt<W: fmt::Write>(&self, f: &mut fmt::Formatter<W>) -> fmt::Result {
        let Step {
            kind,
            target,
            value,
            time,
        } = self.0;
        let time = Time(time);
        match Kind::try_from(kind) {
            Ok(Kind::Set) => write!(f, "set lamp {target} to {value}{time}"),
            Ok(Kind::Raise) => write!(f, "raise lamp {target} by {value}{time}"),
            Ok(Kind::Lower) => write!(f, "lower lamp {target} by {value}{time}"),
            Ok(Kind::WriteRam) => write!(f, "write {value:02X} to RAM byte {target}"),
            Ok(Kind::WriteEeprom) => write!(f, "write {value:02X} to EEPROM byte {target}"),
            Err(_) => Ok(()),
        }
    }
}

// What the target of a step of this kind may be.
#[derive(Clone, Copy)]
struct Targets(u8);

impl Display for Targets {
    fn fmt<W: fmt::Write>(&self, f: &mut fmt::Formatter<W>) -> fmt::Result {
        match Kind::try_from(self.0) {
            Ok(Kind::WriteRam) => write!(f, "RAM has bytes 0 to {}", RAM_SIZE - 1),
            Ok(Kind::WriteEeprom) => write!(f, "EEPROM has bytes 0 to {}", EEPROM_SIZE - 1),
            _ => write!(f, "lamps are 0 to {}", MAX_LAMPS - 1),
        }
    }
}

// The first bad part of a step, and the rule that it breaks.
#[derive(Clone, Copy)]
struct Rule {
    step: Step,
    fault: Refusal,
}

impl Display for Rule {
    fn fmt<W: fmt::Write>(&self, f: &mut fmt::Formatter<W>) -> fmt::Result {
        let Step { kind, time, .. } = self.step;
        match self.fault {
            Refusal::StepKind => write!(f, "kind: kinds are 0 to {WRITE_EEPROM}"),
            Refusal::StepTarget => write!(f, "target: {}", Targets(kind)),
            Refusal::StepValue => write!(f, "value: levels are 0 to {MAX_LEVEL}"),
            _ if is_lamp(kind) => write!(f, "time: {time:02X} is neither minutes nor seconds"),
            _ => write!(f, "time: a memory step has none"),
        }
    }
}

fn print_step(rt: &impl Print, number: usize, step: Step) -> io::Result<()> {
    match step_fault(step) {
        Ok(()) => println!(rt; "  {number} {}", Action(step)),
        Err(fault) => {
            let bytes = [step.kind, step.target, step.value, step.time];
            println!(rt;
                "  {number}{} bad {}",
                Hex::<UPPER>(&bytes),
                Rule { step, fault }
            )
        }
    }
}

// Prints a scene, and the refusal of its first bad step.
fn print_scene(rt: &impl Print, scene: usize, steps: Steps) -> io::Result<()> {
    println!(rt; "scene {scene}, {}", Count(steps.count, "step"))?;
    for i in 0..steps.count {
        print_step(rt, i, steps.step(i))?;
    }
    if let Err(BadStep { step, refusal }) = check_steps(steps) {
        println!(rt; "  refused {} at step {step}", u8::from(refusal))?;
    }
    Ok(())
}

// Prints all scenes of a well-formed book.
pub fn print_book(rt: &impl Print, book: &[u8]) -> io::Result<()>
    requires { book_ok book.now ≡ true }
{
    let scenes = usize::from(book[0]);
    println!(rt;
        "book of {}, {}",
        Count(book.len(), "byte"),
        Count(scenes, "scene")
    )?;
    for scene in 0..scenes {
        print_scene(rt, scene, scene_steps(book, scene))?;
    }
    Ok(())
}
