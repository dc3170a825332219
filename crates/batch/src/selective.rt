// The PData of a selective batch: a node set, then a list.
ghost use Rattle.std.specs.Prelude.{◌≡◌};
ghost use Rattle.batch.specs.Seen.{selection_seen};
ghost use Rattle.batch.specs.Selective.{selection_of};

use crate::fault::ListFault;
use crate::list::check_list;
use dpa::node_set::{NODE_SET_SIZE, selects};

// PCMD of a selective batch.
pub const SELECTIVE_BATCH: u8 = 0x0B;

// The shortest PData: a node set, and one byte of a list.
const SHORTEST: usize = NODE_SET_SIZE + 1;

// What PData is to a node.
#[derive(Clone, Copy, Debug, PartialEq, Eq)]
pub enum Selection {
    TooShort,
    // The set does not name the node. Nothing further was tested.
    NotSelected,
    // The set names the node. This is the check of the list, with the place of a fault counted from the first byte of PData.
    Selected(Result<(), ListFault>),
}

// Tests PData for the node with this address.
pub fn select(pdata: &[u8], address: u16) -> Selection
    ensures { selection_seen result ≡ selection_of pdata.now address }
{
    if pdata.len() < SHORTEST {
        return Selection::TooShort;
    }
    if !selects(&pdata[..NODE_SET_SIZE], address) {
        return Selection::NotSelected;
    }
    let list = check_list(&pdata[NODE_SET_SIZE..]);
    Selection::Selected(list.map_err(|fault| fault.after(NODE_SET_SIZE)))
}
