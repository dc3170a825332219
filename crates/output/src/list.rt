// Filling entries into lists.
ghost use Rattle.std.specs.Prelude.{◌≡◌, ◌++◌, ◌+◌, ◌≤◌, length};
ghost use Rattle.dpa.specs.Frame.{header_size, pdata_max, header_bytes};
ghost use Rattle.entries.specs.Writer.{HasRoom, Writes};
ghost use Rattle.output.specs.Fill.{place_for, next_size, length_byte_if_full, separator_bytes};

use crate::form::RequestForm;
use batch::entry::{CLOSING_ZERO, HEAD_SIZE};
use entries::write::Writer;

// Size of a list without entries: its closing zero.
pub const EMPTY_LIST_SIZE: usize = 1;

// The list that an entry goes into, with the size that the list then has.
#[derive(Clone, Copy)]
enum Place {
    // The open list has room for the entry.
    Open(usize),
    // The open list is full: the next list starts with the entry.
    Next(usize),
}

// Where an entry with `pdata` bytes of PData goes if a list of `size` bytes is open. The test and both sizes stand only here; `next_length`
// and `next_list` differ in what they write.
#[tactic(auto, unfolding(crate::specs::Fill::place_for))]
fn place_for(limit: usize, size: usize, pdata: usize) -> Place
    requires { (size ≤ limit) × (pdata ≤ pdata_max) × (limit ≤ pdata_max) }
    ensures { result ≡ place_for limit size pdata }
{
    let entry = HEAD_SIZE + pdata;
    if size + entry <= limit {
        Place::Open(size + entry)
    } else {
        Place::Next(EMPTY_LIST_SIZE + entry)
    }
}

// Writes the length byte of the open list's request if an entry with `pdata` bytes of PData does not fit the list. Returns the size of
// the list that the entry goes into.
#[tactic(auto, unfolding(crate::specs::Fill::place_for, crate::specs::Fill::next_size, crate::specs::Fill::length_byte_if_full))]
pub(crate) fn next_length(form: RequestForm, size: usize, pdata: usize, out: &mut Writer) -> usize
    requires { (size ≤ form.limits.list) × (pdata ≤ pdata_max)
        × HasRoom out.old (length (length_byte_if_full form.limits.list (header_size + length form.front.now) size pdata)) }
    ensures size { result ≡ next_size form.entry.limits.list size pdata }
    ensures written { Writes out.old out.new (length_byte_if_full form.entry.limits.list (header_size + length form.entry.front.now) size pdata) }
{
    match place_for(form.limits.list, size, pdata) {
        Place::Open(grown) => grown,
        Place::Next(first) => {
            out.write_byte(form.length_byte(size));
            first
        }
    }
}

// Ends the open list and starts the next request if an entry with `pdata` bytes of PData does not fit the list. Returns the size of the
// list that the entry goes into.
#[tactic(auto, unfolding(crate::specs::Fill::place_for, crate::specs::Fill::next_size, crate::specs::Fill::separator_bytes))]
pub(crate) fn next_list(form: RequestForm, size: usize, pdata: usize, out: &mut Writer) -> usize
    requires { (size ≤ form.limits.list) × (pdata ≤ pdata_max)
        × HasRoom out.old (length (separator_bytes form.limits.list (header_bytes form.header ++ form.front.now) size pdata)) }
    ensures size { result ≡ next_size form.entry.limits.list size pdata }
    ensures written { Writes out.old out.new (separator_bytes form.entry.limits.list (header_bytes form.entry.header ++ form.entry.front.now) size pdata) }
{
    match place_for(form.limits.list, size, pdata) {
        Place::Open(grown) => grown,
        Place::Next(first) => {
            out.write_byte(CLOSING_ZERO);
            form.write_prefix(out);
            first
        }
    }
}
