// A batch's list of entries: the next entry, the end of the list, and the check of a whole list; and the node set in front of the list
// of a selective batch.
#![tactic(auto)]

pub mod entry;
pub mod fault;
pub mod list;
pub mod selective;
