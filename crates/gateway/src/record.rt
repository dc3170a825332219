// The record of a gateway, and the answers of its calls.
ghost use Rattle.std.specs.Prelude.{◌≡◌};
ghost use Rattle.gateway.specs.Gateway.{count_answer_of, bitmap_answer_of};

use bonds::addresses::BONDS_SIZE;
use dpa::frame::Frame;
use dpa::refusal::{NONE, Refusal};
use queue::record::SendQueue;

// Bit a % 8 of byte a / 8 of the bonds is set if address a is bonded.
#[repr(C)]
#[derive(Clone, Copy)]
pub struct Gateway {
    pub bonds: [u8; BONDS_SIZE],
    pub queue: SendQueue,
}

// A refusal number, the number of bonds, and the gateway.
// C interface (`grelfint_bond`, `grelfint_unbond`, `grelfint_clear_bonds`): a Result would copy the gateway once more.
#[repr(C)]
#[derive(Clone, Copy)]
pub struct BondAnswer {
    pub refusal: u8,
    pub count: u8,
    pub gateway: Gateway,
}

// What C gets from `bond_count` (`grelfint_bond_count`).
#[repr(C)]
#[derive(Clone, Copy)]
pub struct CountAnswer {
    pub refusal: u8,
    pub count: u8,
}

impl From<Result<u8, Refusal>> for CountAnswer {
    ghost from_gives = { λ outcome answer. answer ≡ count_answer_of outcome };

    fn from(outcome: Result<u8, Refusal>) -> CountAnswer {
        match outcome {
            Ok(count) => CountAnswer {
                refusal: NONE,
                count,
            },
            Err(refusal) => CountAnswer {
                refusal: u8::from(refusal),
                count: 0,
            },
        }
    }
}

// What C gets from `bond_bitmap` (`grelfint_bond_bitmap`).
#[repr(C)]
#[derive(Clone, Copy)]
pub struct BitmapAnswer {
    pub refusal: u8,
    pub bitmap: [u8; BONDS_SIZE],
}

impl From<Result<[u8; BONDS_SIZE], Refusal>> for BitmapAnswer {
    ghost from_gives = { λ outcome answer. answer ≡ bitmap_answer_of outcome };

    fn from(outcome: Result<[u8; BONDS_SIZE], Refusal>) -> BitmapAnswer {
        match outcome {
            Ok(bitmap) => BitmapAnswer {
                refusal: NONE,
                bitmap,
            },
            Err(refusal) => BitmapAnswer {
                refusal: u8::from(refusal),
                bitmap: [0; BONDS_SIZE],
            },
        }
    }
}

// A refusal number, and the gateway.
// C interface (`grelfint_send`): a Result would copy the gateway once more.
#[repr(C)]
#[derive(Clone, Copy)]
pub struct GatewayAnswer {
    pub refusal: u8,
    pub gateway: Gateway,
}

// `length` is the confirmation's; the released frame is at the front of `frame`, with zeros after it.
// C interface (`grelfint_release`): the fields, so the frame has a flag and its length beside it; a Result would copy the gateway once more.
#[repr(C)]
#[derive(Clone, Copy)]
pub struct ReleaseAnswer {
    pub refusal: u8,
    pub released: bool,
    pub length: usize,
    pub frame_length: usize,
    pub frame: [u8; Frame::LONGEST],
    pub gateway: Gateway,
}
