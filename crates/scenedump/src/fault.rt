// Where a book that is not well formed goes wrong.
use book::check::BookFault;
use book::locations::SCENES_MAX;
use book::step::STEPS_MAX;
use dpa::refusal::Refusal;
use std::fmt::Display;
use std::{fmt, io};

// The fault of a book of this length.
#[derive(Clone, Copy)]
pub struct Fault {
    pub fault: BookFault,
    pub length: usize,
}

impl Display for Fault {
    fn fmt<W: fmt::Write>(&self, f: &mut fmt::Formatter<W>) -> fmt::Result {
        let Fault { fault, length } = *self;
        match fault {
            BookFault::Empty => write!(f, "it is empty"),
            BookFault::Scenes { scenes } => {
                write!(f, "it has {scenes} scenes, at most {SCENES_MAX}")
            }
            BookFault::Locations { end } => write!(
                f,
                "the contents end at byte {end}, the book at byte {length}"
            ),
            BookFault::Start {
                scene,
                offset,
                start,
            } => write!(
                f,
                "scene {scene} starts at byte {offset}, not at byte {start}"
            ),
            BookFault::Steps { scene, steps } => {
                write!(f, "scene {scene} has {steps} steps, at most {STEPS_MAX}")
            }
            BookFault::End { end } => {
                write!(f, "the scenes end at byte {end}, the book at byte {length}")
            }
        }
    }
}

pub fn print_not_a_book(rt: &impl Print, fault: impl Display + Drop) -> io::Result<()> {
    println!(rt;
        "refused {}: not a scene book: {fault}",
        u8::from(Refusal::Book)
    )
}
