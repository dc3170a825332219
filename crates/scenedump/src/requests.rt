// The requests that a scene compiles to, and the time that each takes.
ghost use Rattle.std.specs.Prelude.{◌≤◌, ◌<◌, length};
ghost use Rattle.dpa.specs.Lists.{All};
ghost use Rattle.output.specs.Output.{total_length};
ghost use Rattle.scenedump.specs.Output.{RequestLength, Printable};

use crate::args::Options;
use console::number::number_argument;
use console::print::{Count, Hex, UPPER};
use dpa::frame::Frame;
use scene::compile::{CompileError, MIN_OUTPUT, compile};
use std::io;
use std::ops::Range;
use std::rt::Env;
use step::fault::BadStep;
use timing::slot::{SLOT_UNIT_MS, earliest_send, timeslot};

// How long after a request with this much PData the next one may be sent, in ms. A batch answers without data.
fn wait_after(pdata: usize, options: Options) -> u32 {
    let hops = options.hops;
    let broadcast = options.address == Frame::BROADCAST;
    earliest_send(hops, pdata, 0, hops, 0, options.network, broadcast).unwrap_or(0)
}

// Prints a request, and returns how long after it the next one may be sent.
fn print_request(rt: &impl Print, request: &[u8], options: Options) -> io::Result<u32>
    requires { RequestLength (length request.now) }
{
    let bytes = request.len();
    let pdata = bytes - Frame::HEADER;
    let slot = u32::from(timeslot(pdata, options.network).unwrap_or(0)) * SLOT_UNIT_MS;
    let wait = wait_after(pdata, options);
    println!(rt;
        "  {bytes} bytes, slot {slot} ms, next send after {wait} ms:{}",
        Hex::<UPPER>(request)
    )?;
    Ok(wait)
}

// Prints requests that follow one another in the bytes, each of the length that its length byte gives.
fn print_all(rt: &impl Print, lengths: &[u8], requests: &[u8], options: Options) -> io::Result<()>
    requires { (total_length lengths.now ≤ length requests.now) × All RequestLength lengths.now × (length lengths.now < 256) }
{
    let mut rest = requests;
    let mut total: u64 = 0;
    for &length in lengths {
        let (request, later) = rest.split_at(usize::from(length));
        total += u64::from(print_request(rt, request, options)?);
        rest = later;
    }
    println!(rt; "  {total} ms in all")
}

// Prints the requests of a compiled output.
fn print_output(rt: &impl Print, output: &[u8], options: Options) -> io::Result<()>
    requires { Printable output.now }
{
    let count = usize::from(output[0]);
    let (lengths, requests) = output[1..].split_at(count);
    println!(rt; ", {}", Count(count, "request"))?;
    print_all(rt, lengths, requests, options)
}

// Prints a scene, and where it is sent.
fn print_heading(rt: &impl Print, scene: usize, options: Options) -> io::Result<()> {
    let Options { address, hwpid, .. } = options;
    match address {
        Frame::BROADCAST => print!(rt; "scene {scene} to all nodes, HWPID {hwpid:04X}"),
        _ => print!(rt; "scene {scene} to node {address}, HWPID {hwpid:04X}"),
    }
}

// Prints the requests of a scene, or why it is refused: it has a bad step, or the book does not have it. The book and the address were
// checked before, and every output fits.
fn print_scene(rt: &impl Print, book: &[u8], scene: usize, options: Options) -> io::Result<()>
    requires { 0 < length book.now }
{
    print_heading(rt, scene, options)?;
    let mut out = [0u8; MIN_OUTPUT];
    match compile(book, scene, options.address, options.hwpid, &mut out) {
        Ok(length) => print_output(rt, &out[..length], options),
        Err(CompileError::Step(BadStep { step, refusal })) => {
            println!(rt; ": refused {} at step {step}", u8::from(refusal))
        }
        Err(CompileError::Refused(refusal)) => {
            let scenes = Count(usize::from(book[0]), "scene");
            println!(rt; ": refused {}, the book has {scenes}", u8::from(refusal))
        }
    }
}

// Prints the requests of the scenes that the arguments of these numbers name. That they are numbers was tested before.
pub fn print_scenes(
    rt: &(impl Env + Print),
    book: &[u8],
    options: Options,
    scenes: Range<usize>,
) -> io::Result<()>
    requires { 0 < length book.now }
{
    if scenes.is_empty() {
        return Ok(());
    }
    println!(rt)?;
    for scene in scenes.filter_map(|i| number_argument(rt, i, usize::MAX)) {
        print_scene(rt, book, scene, options)?;
    }
    Ok(())
}
