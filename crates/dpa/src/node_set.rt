// A set of nodes: one bit for each address.
ghost use Rattle.std.specs.Prelude.{◌≡◌};
ghost use Rattle.dpa.specs.NodeSet.{selects, selects_any, node_set_ok};

// Bytes of a set, for the addresses 0 to 239.
pub const NODE_SET_SIZE: usize = 30;

// Bit a % 8 of byte a / 8 is set if the set names address a.
#[repr(C)]
#[derive(Clone, Copy)]
pub struct NodeSet {
    pub bits: [u8; NODE_SET_SIZE],
}

// Whether a set names an address; a set that is too short for the address does not.
pub fn selects(set: &[u8], address: u16) -> bool
    ensures { result ≡ selects set.now address }
{
    let index = usize::from(address / 8);
    if set.len() <= index {
        return false;
    }
    (set[index] >> (address % 8)) % 2 == 1
}

// Whether a set names any address: a byte of it is not 0.
fn selects_any(nodes: NodeSet) -> bool
    ensures { result ≡ selects_any nodes.bits }
{
    nodes.bits.iter().any(|byte| *byte != 0)
}

// Whether a scene can be compiled for a set: it names a node, and not address 0, which is the coordinator's.
pub fn node_set_ok(nodes: NodeSet) -> bool
    ensures { result ≡ node_set_ok nodes.bits }
{
    let bits = nodes.bits;
    if selects(&bits, 0) {
        return false;
    }
    selects_any(nodes)
}
