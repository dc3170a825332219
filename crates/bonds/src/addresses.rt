// Which addresses are bonded, and how that changes.
ghost use Rattle.std.specs.Prelude.{◌≡◌, true, ◌%◌, ◌^◌};
ghost use Rattle.bonds.specs.Bonds.{bond_count, adds, can_change, changed_bonds, bonds_ok};

use dpa::node_set::{NODE_SET_SIZE, selects};
use dpa::settings::node_address;

// Bytes of the bonds: bit a % 8 of byte a / 8 is set if address a is bonded.
pub const BONDS_SIZE: usize = 32;

// What happens to an address.
#[derive(Clone, Copy, Debug, PartialEq, Eq)]
pub enum BondChange {
    Add,
    Remove,
}

// Bonds of addresses that a node can have. `bonds_ok` tests bytes that come from elsewhere.
#[derive(Clone, Copy)]
pub struct Bonds {
    pub bytes: [u8; BONDS_SIZE],
    ghost sound: { bonds_ok bytes ≡ true },
}

// Returns whether only addresses that a node can have are bonded. The bytes after those of a node set have the addresses from 240 on.
pub fn bonds_ok(bonds: [u8; BONDS_SIZE]) -> bool
    ensures { result ≡ bonds_ok bonds }
{
    if selects(&bonds, 0) {
        return false;
    }
    if bonds[NODE_SET_SIZE] != 0 {
        return false;
    }
    bonds[NODE_SET_SIZE + 1] == 0
}

// Returns whether an address can be bonded, or has a bond that can be removed.
#[tactic(auto, unfolding(crate::specs::Bonds::can_add, crate::specs::Bonds::bonded_node))]
pub fn can_change(change: BondChange, bonds: &[u8], address: u16) -> bool
    ensures { result ≡ can_change (adds change) bonds.now address }
{
    if !node_address(address) {
        return false;
    }
    let bonded = selects(bonds, address);
    match change {
        BondChange::Add => !bonded,
        BondChange::Remove => bonded,
    }
}

// The bit of an address in its byte.
fn bit_of(address: u16) -> u8
    ensures { result ≡ 2 ^ (address % 8) }
{
    1 << (address % 8)
}

impl Bonds {
    // The bonds with one more, or with one less.
    pub fn change(self, change: BondChange, address: u16) -> Bonds
        requires { can_change (adds change) self.bytes address ≡ true }
        ensures { result.bytes ≡ changed_bonds (adds change) self.bytes address }
    {
        let mut bytes = self.bytes;
        let byte = &mut bytes[usize::from(address / 8)];
        match change {
            BondChange::Add => *byte += bit_of(address),
            BondChange::Remove => *byte -= bit_of(address),
        }
        Bonds { bytes }
    }

    // The number of bonds. There are none in the bytes after those of a node set.
    pub fn count(self) -> u8
        ensures { result ≡ bond_count self.bytes }
    {
        let mut count: u32 = 0;
        for byte in &self.bytes[..NODE_SET_SIZE] {
            count += byte.count_ones();
        }
        count as u8
    }
}
