// The read view: a slice of EEPROM or external memory, without a request and without copying. The memories come one by one, as C lends them
// (grelfint_view_status).
ghost use Rattle.std.specs.Prelude.{◌≡◌, IfOk};
ghost use Rattle.dpa.specs.Refusal.{refusal_of};
ghost use Rattle.memory.specs.View.{view_status, view_bytes, view_place};

use crate::block::{Memory, block_fault};
use dpa::pnum;
use dpa::refusal::Refusal;

// The slice that the view asks for, or why the view is refused.
#[tactic(auto, unfolding(crate::specs::View::view_status, crate::specs::View::view_bytes, crate::specs::View::view_place))]
fn viewed<'a>(
    eeprom: &'a [u8],
    external: &'a [u8],
    pnum: u8,
    start: usize,
    count: usize,
) -> Result<&'a [u8], Refusal>
    ensures refusal { refusal_of result ≡ view_status eeprom.now external.now pnum start count }
    ensures bytes { IfOk result (λ s. s.now ≡ view_bytes eeprom.now external.now pnum start count) }
    ensures place { IfOk result (λ s. s.ref_ptr ≡ view_place eeprom.entry external.entry pnum start count) }
{
    if eeprom.len() != Memory::Eeprom.size() {
        return Err(Refusal::Memory);
    }
    if external.len() != Memory::External.size() {
        return Err(Refusal::Memory);
    }
    let (memory, bytes) = match pnum {
        pnum::EEPROM => (Memory::Eeprom, eeprom),
        pnum::EXTERNAL => (Memory::External, external),
        _ => return Err(Refusal::View),
    };
    block_fault(memory, start, count)?;
    Ok(&bytes[start..start + count])
}

// Why the view is refused.
pub fn view_status(
    eeprom: &[u8],
    external: &[u8],
    pnum: u8,
    start: usize,
    count: usize,
) -> Result<(), Refusal>
    ensures { refusal_of result ≡ view_status eeprom.now external.now pnum start count }
{
    viewed(eeprom, external, pnum, start, count)?;
    Ok(())
}

// The slice that the view asks for. If the view is refused: an empty slice at the start of EEPROM.
#[tactic(auto, unfolding(crate::specs::View::view_bytes, crate::specs::View::view_place))]
pub fn view<'a>(
    eeprom: &'a [u8],
    external: &'a [u8],
    pnum: u8,
    start: usize,
    count: usize,
) -> &'a [u8]
    ensures { (result.now ≡ view_bytes eeprom.now external.now pnum start count)
        × (result.ref_ptr ≡ view_place eeprom.entry external.entry pnum start count) }
{
    viewed(eeprom, external, pnum, start, count).unwrap_or(&eeprom[..0])
}
