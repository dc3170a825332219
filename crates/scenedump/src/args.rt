// The arguments: options, then the file, then scene numbers.
use console::number::{LONGEST_ARGUMENT, number_argument};
use dpa::frame::Frame;
use dpa::settings::address_ok;
use std::env::FillError;
use std::ops::Range;
use std::rt::Env;
use timing::slot::Network;

#[derive(Clone, Copy)]
pub struct Options {
    pub address: u16,
    pub hwpid: u16,
    pub hops: u8,
    pub network: Network,
}

impl Default for Options {
    fn default() -> Options {
        Options {
            address: Frame::BROADCAST,
            hwpid: Frame::ANY_HWPID,
            hops: 0,
            network: Network::Std,
        }
    }
}

// What is listed: the file, if an argument names one, and the scenes. Both are given as the numbers of their arguments.
#[derive(Drop)]
pub struct Job {
    pub options: Options,
    pub file: Option<usize>,
    pub scenes: Range<usize>,
}

// What the arguments ask for.
#[derive(Drop)]
pub enum Task {
    List(Job),
    Help,
}

// The number of the first argument that is bad.
#[derive(Clone, Copy)]
pub struct BadArgument(pub usize);

// An option whose number is the next argument.
#[derive(Clone, Copy)]
enum Setting {
    Address,
    Profile,
    Hops,
}

impl Setting {
    // The options with argument i for this one, unless it is no number, or none that this option may have.
    fn read(self, rt: &impl Env, options: Options, i: usize) -> Option<Options> {
        let number = number_argument(rt, i, u16::MAX as usize)? as u16;
        let mut next = options;
        match self {
            Setting::Address if address_ok(number) => next.address = number,
            Setting::Address => return None,
            Setting::Profile => next.hwpid = number,
            Setting::Hops => next.hops = u8::try_from(number).ok()?,
        }
        Some(next)
    }
}

// Argument i, unless it is missing or does not fit the buffer.
fn read_argument<'a>(
    rt: &impl Env,
    i: usize,
    text: &'a mut [u8; LONGEST_ARGUMENT],
) -> Result<&'a [u8], FillError> {
    let length = rt.arg(i, text)?;
    Ok(&text[..length])
}

// What an argument before the scenes means.
#[derive(Clone, Copy)]
enum Word {
    Setting(Setting),
    LowPower,
    Help,
    File,
}

impl Word {
    // A `-` alone is a file.
    fn parse(text: &[u8]) -> Option<Word> {
        match text {
            b"-a" => Some(Word::Setting(Setting::Address)),
            b"-p" => Some(Word::Setting(Setting::Profile)),
            b"-n" => Some(Word::Setting(Setting::Hops)),
            b"-l" => Some(Word::LowPower),
            b"-h" => Some(Word::Help),
            [b'-', _, ..] => None,
            _ => Some(Word::File),
        }
    }

    fn read(rt: &impl Env, i: usize) -> Option<Word> {
        let mut text = [0u8; LONGEST_ARGUMENT];
        Word::parse(read_argument(rt, i, &mut text).ok()?)
    }
}

// Checks that these arguments are numbers, so that a bad one is told before anything is printed.
fn check_scenes(rt: &impl Env, scenes: Range<usize>) -> Result<Range<usize>, BadArgument> {
    for i in scenes.start..scenes.end {
        number_argument(rt, i, usize::MAX).ok_or(BadArgument(i))?;
    }
    Ok(scenes)
}

// How many arguments there are, with the program's name.
fn count_arguments(rt: &impl Env) -> usize {
    let is_missing = |&i: &usize| matches!(rt.arg(i, &mut []), Err(FillError::NotPresent));
    (0..usize::MAX).find(is_missing).unwrap_or(usize::MAX)
}

// Reads all arguments. An option takes its number from the same numbers as the loop.
pub fn read_arguments(rt: &impl Env) -> Result<Task, BadArgument> {
    let mut options = Options::default();
    let mut numbers = 1..count_arguments(rt);
    while let Some(i) = numbers.next() {
        match Word::read(rt, i).ok_or(BadArgument(i))? {
            Word::Setting(setting) => {
                let at = numbers.next().ok_or(BadArgument(i))?;
                options = setting.read(rt, options, at).ok_or(BadArgument(at))?;
            }
            Word::LowPower => options.network = Network::StdLp,
            Word::Help => return Ok(Task::Help),
            Word::File => {
                return Ok(Task::List(Job {
                    options,
                    file: Some(i),
                    scenes: check_scenes(rt, numbers)?,
                }));
            }
        }
    }
    Ok(Task::List(Job {
        options,
        file: None,
        scenes: numbers,
    }))
}

pub const USAGE: &[u8] = b"usage: scenedump [-a ADDRESS] [-p HWPID] [-n HOPS] [-l] [FILE [SCENE..]]
Lists the scenes of a book, and the requests of each SCENE.
  FILE        the scene book; none or -: standard input
  SCENE       a scene number
  -a ADDRESS  the node, 1 to 239, or 255 for all nodes (default 255)
  -p HWPID    the hardware profile, 0 to 65535 (default 0xFFFF)
  -n HOPS     the hops in either direction, 0 to 255 (default 0)
  -l          the network is STD+LP (default STD)
  -h          prints this text
Numbers are decimal, or hexadecimal after 0x.
";

// Tells which argument is bad, and the usage, to `errors`, which is standard error. A failure to write there cannot be told.
pub fn refuse_argument(rt: &impl Env, errors: &impl Print, bad: BadArgument) {
    let BadArgument(i) = bad;
    let mut text = [0u8; LONGEST_ARGUMENT];
    let argument = read_argument(rt, i, &mut text).unwrap_or(b"too long");
    let _ = print!(errors; "bad argument {i}: ");
    let _ = errors.write_all(argument);
    let _ = println!(errors);
    let _ = errors.write_all(USAGE);
}
