// A whole list: entries, then the closing zero as its last byte.
ghost use Rattle.std.specs.Prelude.{◌≡◌};
ghost use Rattle.batch.specs.Batch.{reading};
ghost use Rattle.batch.specs.Seen.{check_seen};

use crate::entry::{Entry, at_end, next_entry};
use crate::fault::ListFault;

// PCMD of a batch.
pub const BATCH: u8 = 0x05;

// Checks the first entry, then the rest of the list. The place of a fault counts from the first byte of the list.
pub fn check_list(rest: &[u8]) -> Result<(), ListFault>
    ensures { check_seen result ≡ (reading rest.now).check }
{
    if at_end(rest) {
        return Ok(());
    }
    let first = next_entry(rest);
    let Ok(Entry { len, .. }) = first else {
        return first.and(Ok(()));
    };
    // With `map_err`, each level copies a sound result too, and a batch of eleven entries takes a quarter longer.
    if let Err(fault) = check_list(&rest[len..]) {
        return Err(fault.after(len));
    }
    Ok(())
}
