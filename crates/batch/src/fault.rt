// Why a list cannot be split into entries. Each reason comes with a place in the list, or in PData where a node set is in front of it.
ghost use Rattle.std.specs.Prelude.{◌≡◌, ◌+◌, ◌^◌, ◌<◌};
ghost use Rattle.batch.specs.Seen.{reason_number};

// The number of a list without a fault.
pub const NONE: u8 = 0;

// The reasons with their numbers.
#[derive(Clone, Copy, Debug, PartialEq, Eq)]
pub enum Reason {
    // A length byte of 1 to 4; the place is that byte's.
    Short = 1,
    // An entry that runs past the end of the list; the place is its length byte's.
    PastEnd = 2,
    // No closing zero; the place is the list's length.
    Unclosed = 3,
    // Bytes after the closing zero; the place is that of the first of them.
    Trailing = 4,
}

impl From<Reason> for u8 {
    ghost from_gives = { λ reason n. n ≡ reason_number reason };

    fn from(reason: Reason) -> u8 {
        reason as u8
    }
}

// The first fault of a list, and its place.
#[derive(Clone, Copy, Debug, PartialEq, Eq)]
pub struct ListFault {
    pub reason: Reason,
    pub at: usize,
}

impl ListFault {
    // The same fault where `count` bytes are in front of those that its place counts.
    pub(crate) fn after(self, count: usize) -> ListFault
        requires { count + self.at < 2 ^ 64 }
        ensures { result ≡ record self { at = count + self.at } }
    {
        ListFault {
            reason: self.reason,
            at: count + self.at,
        }
    }
}
