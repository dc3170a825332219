// Lists the scenes of a book, and the requests that they compile to:
//
//     scenedump [-a ADDRESS] [-p HWPID] [-n HOPS] [-l] [FILE [SCENE..]]
//
// What it finds in the book goes to standard output. N, K, T and V are decimal, H is a hexadecimal digit. For the book:
//
//     book of N bytes, N scenes
//     scene K, N steps
//       K set lamp T to V             and "raise lamp T by V", "lower lamp T by V"; a time follows: " for N min" or " for N s"
//       K write HH to RAM byte T      or "EEPROM byte"
//       K HH HH HH HH bad PART: RULE
//       refused N at step K           the first bad step, if there is one
//
// then, after an empty line, for each SCENE its requests or why it is refused:
//
//     scene K to node T, HWPID HHHH, N requests      or "to all nodes"
//       N bytes, slot N ms, next send after N ms: HH HH ..
//       N ms in all
//     scene K to node T, HWPID HHHH: refused N at step K
//     scene K to node T, HWPID HHHH: refused 7, the book has N scenes
//
// Of one thing the singular is printed. Other bytes are answered by "refused 6: not a scene book: " and where they go wrong.
// What keeps the program from its work goes to standard error: a bad argument with the usage, or what failed and the reason.
#![tactic(auto)]

mod args;
mod fault;
mod requests;
mod steps;

use args::{Job, Task, USAGE, read_arguments, refuse_argument};
use book::check::check_book;
use book::locations::LONGEST_BOOK;
use console::failure::Reason;
use console::input::read_input;
use fault::{Fault, print_not_a_book};
use requests::print_scenes;
use std::io;
use std::rt::{Env, Files};
use steps::print_book;

fn dump(rt: &(impl Env + Print), book: &[u8], job: Job) -> io::Result<()> {
    if let Err(fault) = check_book(book) {
        let length = book.len();
        return print_not_a_book(rt, Fault { fault, length });
    }
    print_book(rt, book)?;
    print_scenes(rt, book, job.options, job.scenes)
}

// Reads up to one byte more than the longest book has, so that a longer input is noticed and refused.
fn run<R: Env + Files + io::Input + Print>(
    rt: &R,
    errors: &impl Print,
    job: Job,
) -> io::Result<()> {
    let mut buffer = [0u8; LONGEST_BOOK + 1];
    let Some(book) = read_input(rt, errors, job.file, &mut buffer) else {
        return Ok(());
    };
    if LONGEST_BOOK < book.len() {
        return print_not_a_book(rt, format_args!("more than {LONGEST_BOOK} bytes"));
    }
    dump(rt, book, job)
}

// After a write to standard output that fails nothing more is written there, and the reason is told.
fn main(rt: HostRuntime) {
    let errors = rt.stderr();
    let written = match read_arguments(&rt) {
        Ok(Task::List(job)) => run(&rt, &errors, job),
        Ok(Task::Help) => rt.write_all(USAGE),
        Err(bad) => {
            refuse_argument(&rt, &errors, bad);
            Ok(())
        }
    };
    if let Err(error) = written {
        // In one write, so that nothing else on standard error comes between name and reason. A failure to write there cannot be told.
        let reason = Reason(error);
        let _ = println!(errors; "standard output: {reason}");
    }
}
