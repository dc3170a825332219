// The next entry of a list, and the closing zero at its end.
ghost use Rattle.std.specs.Prelude.{◌≡◌};
ghost use Rattle.batch.specs.Batch.{at_end, next_entry};
ghost use Rattle.batch.specs.Seen.{entry_seen};

use crate::fault::{ListFault, Reason};
use dpa::number::word_of;

// Size of an entry's head: length, PNUM, PCMD and HWPID.
pub const HEAD_SIZE: usize = 5;

// The byte that ends a list, in place of an entry's length.
pub const CLOSING_ZERO: u8 = 0;

// An entry of `len` bytes; its PData starts at HEAD_SIZE.
#[derive(Clone, Copy, Debug, PartialEq, Eq)]
pub struct Entry {
    pub len: usize,
    pub pnum: u8,
    pub pcmd: u8,
    pub hwpid: u16,
}

// Whether only the closing zero is left.
pub fn at_end(s: &[u8]) -> bool
    ensures { result ≡ at_end s.now }
{
    if s.len() != 1 {
        return false;
    }
    s[0] == CLOSING_ZERO
}

// Reads the entry at the front of a list. At the closing zero and after the last byte there is none: a fault, whose place counts from the
// first of these bytes.
#[tactic(auto, unfolding(crate::specs::Batch::next_entry))]
pub fn next_entry(s: &[u8]) -> Result<Entry, ListFault>
    ensures { entry_seen result ≡ next_entry s.now }
{
    if s.is_empty() {
        return Err(ListFault {
            reason: Reason::Unclosed,
            at: 0,
        });
    }
    if s[0] == CLOSING_ZERO {
        return Err(ListFault {
            reason: Reason::Trailing,
            at: 1,
        });
    }
    let len = usize::from(s[0]);
    if len < HEAD_SIZE {
        return Err(ListFault {
            reason: Reason::Short,
            at: 0,
        });
    }
    if s.len() < len {
        return Err(ListFault {
            reason: Reason::PastEnd,
            at: 0,
        });
    }
    Ok(Entry {
        len,
        pnum: s[1],
        pcmd: s[2],
        hwpid: word_of(s[3], s[4]),
    })
}
