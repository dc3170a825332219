// Read and write requests. PData starts with the address; a read's length or a write's data follows.
ghost use Rattle.std.specs.Prelude.{◌≡◌, ◌+◌, ◌-◌, ◌<◌, ◌≤◌, length, IfOk};
ghost use Rattle.dpa.specs.Error.{error_of};
ghost use Rattle.dpa.specs.Frame.{pdata_max};
ghost use Rattle.dpa.specs.Reply.{outcome_seen, reply_in_buffer};
ghost use Rattle.memory.specs.Block.{size_of, longest_of, address_bytes};
ghost use Rattle.memory.specs.Request.{address_of, block_start, block_length, read_error, write_error, memory_request};

use crate::block::{Memory, block_fault, copy_in, copy_out};
use dpa::error::ErrN;
use dpa::number::word_of;

// A block of a memory.
#[derive(Clone, Copy)]
struct Block {
    start: usize,
    count: usize,
}

// The address at the front of PData: one byte, or two with the low byte first.
#[tactic(auto, unfolding(crate::specs::Request::address_of))]
fn address(width: usize, pdata: &[u8]) -> usize
    requires { (1 ≤ width) × (width ≤ length pdata.now) }
    ensures { result ≡ address_of width pdata.now }
{
    if width == 1 {
        return usize::from(pdata[0]);
    }
    usize::from(word_of(pdata[0], pdata[1]))
}

// The block of a read, or its error.
#[tactic(auto, unfolding(crate::specs::Request::read_error))]
fn read_block(memory: Memory, pdata: &[u8]) -> Result<Block, ErrN>
    ensures error { error_of result ≡ read_error memory pdata.now }
    ensures block { IfOk result (λ b. (b.start ≡ block_start memory pdata.now) × (b.count ≡ block_length memory pdata.now)) }
    ensures fits { IfOk result (λ b. (b.count ≤ longest_of memory) × (b.start + b.count ≤ size_of memory)) }
{
    let width = memory.address_bytes();
    if pdata.len() != width + 1 {
        return Err(ErrN::DataLen);
    }
    let start = address(width, pdata);
    let count = usize::from(pdata[width]);
    block_fault(memory, start, count)?;
    Ok(Block { start, count })
}

// Where a write starts, or its error.
#[tactic(auto, unfolding(crate::specs::Request::write_error))]
fn write_start(memory: Memory, pdata: &[u8]) -> Result<usize, ErrN>
    ensures error { error_of result ≡ write_error memory pdata.now }
    ensures start { IfOk result (λ s. s ≡ block_start memory pdata.now) }
    ensures fits { IfOk result (λ s. (address_bytes memory < length pdata.now)
        × (s + (length pdata.now - address_bytes memory) ≤ size_of memory)) }
{
    let width = memory.address_bytes();
    if pdata.len() <= width {
        return Err(ErrN::DataLen);
    }
    let start = address(width, pdata);
    block_fault(memory, start, pdata.len() - width)?;
    Ok(start)
}

// Answers a request: the response data is written to the front of out; an error writes nothing. The memory is only read.
#[tactic(auto, unfolding(crate::specs::Request::memory_request, crate::specs::Request::read_request, crate::specs::Request::write_request))]
pub fn answer(
    memory: Memory,
    mem: &[u8],
    pcmd: u8,
    pdata: &[u8],
    out: &mut [u8],
) -> Result<usize, ErrN>
    requires { (length mem.now ≡ size_of memory) × (pdata_max ≤ length out.old) }
    ensures { outcome_seen (memory_request memory pcmd pdata.now mem.now).after result out.new
        ≡ reply_in_buffer (memory_request memory pcmd pdata.now mem.now) out.old }
{
    if pcmd == memory.read_command() {
        let block = read_block(memory, pdata)?;
        copy_out(mem, block.start, block.count, out);
        return Ok(block.count);
    }
    if pcmd == memory.write_command() {
        write_start(memory, pdata)?;
        return Ok(0);
    }
    Err(ErrN::Pcmd)
}

// The memory after a request: only a write without an error changes it.
#[tactic(auto, unfolding(crate::specs::Request::memory_request, crate::specs::Request::read_request, crate::specs::Request::write_request))]
pub fn change(memory: Memory, mem: &mut [u8], pcmd: u8, pdata: &[u8])
    requires { length mem.old ≡ size_of memory }
    ensures { mem.new ≡ (memory_request memory pcmd pdata.now mem.old).after }
{
    if pcmd != memory.write_command() {
        return;
    }
    if let Ok(start) = write_start(memory, pdata) {
        copy_in(mem, start, &pdata[memory.address_bytes()..]);
    }
}
