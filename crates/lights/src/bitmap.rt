// The bitmap at the front of PData as a number: how many lamps it selects, and which of them is the lowest.
ghost use Rattle.std.specs.Prelude.{◌≡◌, ◌≤◌, ◌<◌, length};
ghost use Rattle.dpa.specs.Settings.{max_lamps};
ghost use Rattle.lights.specs.Bits.{bitmap_size, bits, count, mask_of, lowest_lamp, without_lowest};

// The bitmap as a number: bit k selects lamp k.
pub fn mask_of(src: &[u8]) -> u32
    requires { bitmap_size ≤ length src.now }
    ensures { result ≡ mask_of src.now }
{
    u32::from_le_bytes([src[0], src[1], src[2], src[3]])
}

// The number of lamps that the bitmap selects.
pub fn selected_count(mask: u32) -> usize
    ensures { (result ≡ count (bits max_lamps mask)) × (result ≤ max_lamps) }
{
    mask.count_ones() as usize
}

// The lowest lamp that a mask selects.
pub fn lowest_lamp(mask: u32) -> usize
    requires { mask ≡ 0 → ⊥ }
    ensures { (result ≡ lowest_lamp mask) × (result < max_lamps) }
{
    mask.trailing_zeros() as usize
}

// The mask without its lowest lamp.
#[tactic(auto, using(crate::proofs::Bits::lowest_removed))]
pub fn without_lowest(mask: u32) -> u32
    requires { mask ≡ 0 → ⊥ }
    ensures { result ≡ without_lowest mask }
{
    mask & (mask - 1)
}
