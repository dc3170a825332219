// The gateway rule, the start, and the calls on bonds.
ghost use Rattle.std.specs.Prelude.{◌≡◌, true, false, MatchResult};
ghost use Rattle.dpa.specs.Refusal.{refusal_number};
ghost use Rattle.bonds.specs.Bonds.{adds};
ghost use Rattle.gateway.specs.Gateway.{gateway_ok, new_gateway, bonds_answer, bond_refused, bond_answer_of, change_of, bond_of, unbond_of, clear_of, count_answer_of, bond_count_of, bitmap_answer_of, bond_bitmap_of};

use crate::record::{BondAnswer, Gateway};
use bonds::addresses::{BONDS_SIZE, BondChange, Bonds, bonds_ok, can_change};
use dpa::refusal::{NONE, Refusal};
use queue::updates::new_queue;

impl Gateway {
    // Returns whether the record follows the rule. Each call makes this test: inlined in all of them, it takes more code, stack and time.
    #[inline(never)]
    #[tactic(auto, unfolding(crate::specs::Gateway::gateway_ok))]
    pub fn is_sound(&self) -> bool
        ensures { result ≡ gateway_ok self.now }
    {
        if !bonds_ok(self.bonds) {
            return false;
        }
        self.queue.is_sound()
    }

    // The bonds of a record that follows the rule.
    #[tactic(auto, using(crate::proofs::BondCalls::gateway_bonds))]
    pub fn sound_bonds(&self) -> Result<Bonds, Refusal>
        ensures { MatchResult result (λ b. (gateway_ok self.now ≡ true) × (b.bytes ≡ self.now.bonds)) (λ e. (gateway_ok self.now ≡ false) × (e ≡ Refusal.Node)) }
    {
        if !self.is_sound() {
            return Err(Refusal::Node);
        }
        Ok(Bonds { bytes: self.bonds })
    }
}

// A gateway without bonds or requests.
pub fn gateway_start(lp: bool, dpa_value: u8) -> Gateway
    ensures { result ≡ new_gateway lp dpa_value }
{
    Gateway {
        bonds: [0; BONDS_SIZE],
        queue: new_queue(lp, dpa_value),
    }
}

// The answer with these bonds.
fn bonds_answer(gateway: Gateway, after: Bonds) -> BondAnswer
    ensures { result ≡ bonds_answer gateway after.bytes }
{
    let bonds = after.bytes;
    BondAnswer {
        refusal: NONE,
        count: after.count(),
        gateway: Gateway { bonds, ..gateway },
    }
}

// The answer of a refused call.
fn bond_refused(gateway: Gateway, refusal: Refusal) -> BondAnswer
    ensures { result ≡ bond_refused (refusal_number refusal) gateway }
{
    BondAnswer {
        refusal: u8::from(refusal),
        count: 0,
        gateway,
    }
}

// The bonds with one more, or with one less.
#[tactic(auto, unfolding(crate::specs::Gateway::change_of))]
fn changed_bonds(gateway: &Gateway, change: BondChange, address: u16) -> Result<Bonds, Refusal>
    ensures { bond_answer_of gateway.now result ≡ change_of (adds change) gateway.now address }
{
    let bonds = gateway.sound_bonds()?;
    if !can_change(change, &bonds.bytes, address) {
        return Err(Refusal::Address);
    }
    Ok(bonds.change(change, address))
}

// Changes the bond of an address.
fn change_bond(change: BondChange, gateway: Gateway, address: u16) -> BondAnswer
    ensures { result ≡ change_of (adds change) gateway address }
{
    match changed_bonds(&gateway, change, address) {
        Ok(after) => bonds_answer(gateway, after),
        Err(refusal) => bond_refused(gateway, refusal),
    }
}

// Bonds an address.
pub fn bond(gateway: Gateway, address: u16) -> BondAnswer
    ensures { result ≡ bond_of gateway address }
{
    change_bond(BondChange::Add, gateway, address)
}

// Removes a bond. Requests that wait stay in the queue.
pub fn unbond(gateway: Gateway, address: u16) -> BondAnswer
    ensures { result ≡ unbond_of gateway address }
{
    change_bond(BondChange::Remove, gateway, address)
}

// Removes all bonds. Requests that wait stay in the queue.
#[tactic(auto, using(bonds::proofs::Bonds::none_sound), unfolding(crate::specs::Gateway::clear_of))]
pub fn clear_bonds(gateway: Gateway) -> BondAnswer
    ensures { result ≡ clear_of gateway }
{
    if let Err(refusal) = gateway.sound_bonds() {
        return bond_refused(gateway, refusal);
    }
    let none = Bonds {
        bytes: [0; BONDS_SIZE],
    };
    bonds_answer(gateway, none)
}

// Returns the number of bonds.
#[tactic(auto, unfolding(crate::specs::Gateway::bond_count_of))]
pub fn bond_count(gateway: Gateway) -> Result<u8, Refusal>
    ensures { count_answer_of result ≡ bond_count_of gateway }
{
    Ok(gateway.sound_bonds()?.count())
}

// Returns a bit for each address.
#[tactic(auto, unfolding(crate::specs::Gateway::bond_bitmap_of))]
pub fn bond_bitmap(gateway: Gateway) -> Result<[u8; BONDS_SIZE], Refusal>
    ensures { bitmap_answer_of result ≡ bond_bitmap_of gateway }
{
    Ok(gateway.sound_bonds()?.bytes)
}
