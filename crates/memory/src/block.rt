// The three memories, and which blocks a request may read or write.
ghost use Rattle.std.specs.Prelude.{◌≡◌, ◌++◌, ℕ, ◌+◌, ◌≤◌, length, drop, OnOk};
ghost use Rattle.dpa.specs.Lists.{slice};
ghost use Rattle.memory.specs.Block.{size_of, longest_of, address_bytes, read_command, write_command, block_fault, overwrite};
ghost use Rattle.memory.specs.Fault.{fault_number, fault_error, fault_refusal};

use dpa::copy::copy;
use dpa::error::ErrN;
use dpa::refusal::Refusal;
use dpa::sizes::{EEPROM_SIZE, EXTERNAL_SIZE, RAM_SIZE};

#[derive(Clone, Copy, Debug, PartialEq, Eq)]
pub enum Memory {
    Eeprom,
    Ram,
    External,
}

// One method for each number, because each has a definition of its own in specs/Block; one record of all five would be read by its fields.
impl Memory {
    // Size in bytes.
    pub fn size(self) -> usize
        ensures { (result ≡ size_of self) × (result ≤ size_of Memory.External) }
    {
        match self {
            Memory::Eeprom => EEPROM_SIZE,
            Memory::Ram => RAM_SIZE,
            Memory::External => EXTERNAL_SIZE,
        }
    }

    // The most bytes that one request reads or writes: what fits in PData after the address; for RAM, its size.
    pub fn longest(self) -> usize
        ensures { (result ≡ longest_of self) × (result ≤ longest_of Memory.Eeprom) }
    {
        match self {
            Memory::Eeprom => 55,
            Memory::Ram => 48,
            Memory::External => 54,
        }
    }

    // Width of an address in PData, in bytes.
    pub fn address_bytes(self) -> usize
        ensures { (result ≡ address_bytes self) × (1 ≤ result) × (result ≤ 2) }
    {
        match self {
            Memory::Eeprom | Memory::Ram => 1,
            Memory::External => 2,
        }
    }

    // PCMD of a read.
    pub fn read_command(self) -> u8
        ensures { result ≡ read_command self }
    {
        match self {
            Memory::Eeprom | Memory::Ram => 0,
            Memory::External => 2,
        }
    }

    // PCMD of a write.
    pub fn write_command(self) -> u8
        ensures { result ≡ write_command self }
    {
        match self {
            Memory::Eeprom | Memory::Ram => 1,
            Memory::External => 3,
        }
    }
}

// Why a block cannot be read or written.
#[derive(Clone, Copy, Debug, PartialEq, Eq)]
pub enum BlockFault {
    TooLong,
    Outside,
}

// A request answers a fault with its ErrN.
impl From<BlockFault> for ErrN {
    ghost from_gives = { λ fault error. error ≡ fault_error fault };

    fn from(fault: BlockFault) -> ErrN {
        match fault {
            BlockFault::TooLong => ErrN::DataLen,
            BlockFault::Outside => ErrN::Addr,
        }
    }
}

// A view is refused with a number of its own.
impl From<BlockFault> for Refusal {
    ghost from_gives = { λ fault refusal. refusal ≡ fault_refusal fault };

    fn from(fault: BlockFault) -> Refusal {
        match fault {
            BlockFault::TooLong => Refusal::Block,
            BlockFault::Outside => Refusal::Range,
        }
    }
}

// The block rule. Length and start are checked first, so `start + count` cannot overflow. They are two parameters, as C gives them to a
// view.
#[tactic(auto, unfolding(crate::specs::Block::block_fault))]
pub fn block_fault(memory: Memory, start: usize, count: usize) -> Result<(), BlockFault>
    ensures number { (too_long outside : ℕ) → fault_number too_long outside result
        ≡ block_fault (size_of memory) (longest_of memory) start count too_long outside }
    ensures fits { OnOk result ((count ≤ longest_of memory) × (start + count ≤ size_of memory)) }
{
    let size = memory.size();
    if memory.longest() < count {
        return Err(BlockFault::TooLong);
    }
    if size <= start {
        return Err(BlockFault::Outside);
    }
    if size < start + count {
        return Err(BlockFault::Outside);
    }
    Ok(())
}

// Copies a block of mem to the front of out; the rest of out is unchanged.
pub fn copy_out(mem: &[u8], start: usize, count: usize, out: &mut [u8])
    requires { (start + count ≤ length mem.now) × (count ≤ length out.old) }
    ensures { out.new ≡ slice mem.now start count ++ drop count out.old }
{
    let end = start + count;
    copy(&mem[start..end], out);
}

// Copies src into mem at start; the rest of mem is unchanged.
pub fn copy_in(mem: &mut [u8], start: usize, src: &[u8])
    requires { start + length src.now ≤ length mem.old }
    ensures { mem.new ≡ overwrite mem.old start src.now }
{
    copy(src, &mut mem[start..]);
}
