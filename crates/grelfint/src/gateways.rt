// The gateway's bookkeeping: bonds and the send queue.
ghost use Rattle.std.specs.Prelude.{◌≡◌};
ghost use Rattle.queue.specs.Queue.{outgoing};
ghost use Rattle.gateway.specs.Gateway.{new_gateway, bond_of, unbond_of, clear_of, bond_count_of, bond_bitmap_of, send_request, release_result, release_of};

use gateway::bonding::{bond, bond_bitmap, bond_count, clear_bonds, gateway_start, unbond};
use gateway::record::{
    BitmapAnswer, BondAnswer, CountAnswer, Gateway, GatewayAnswer, ReleaseAnswer,
};
use gateway::sending::{release, send};

#[unsafe(no_mangle)]
pub extern "C" fn grelfint_gateway_start(lp: bool, dpa_value: u8) -> Gateway
    ensures { result ≡ new_gateway lp dpa_value }
{
    gateway_start(lp, dpa_value)
}

#[unsafe(no_mangle)]
pub extern "C" fn grelfint_bond(gateway: Gateway, address: u16) -> BondAnswer
    ensures { result ≡ bond_of gateway address }
{
    bond(gateway, address)
}

#[unsafe(no_mangle)]
pub extern "C" fn grelfint_unbond(gateway: Gateway, address: u16) -> BondAnswer
    ensures { result ≡ unbond_of gateway address }
{
    unbond(gateway, address)
}

#[unsafe(no_mangle)]
pub extern "C" fn grelfint_clear_bonds(gateway: Gateway) -> BondAnswer
    ensures { result ≡ clear_of gateway }
{
    clear_bonds(gateway)
}

#[unsafe(no_mangle)]
pub extern "C" fn grelfint_bond_count(gateway: Gateway) -> CountAnswer
    ensures { result ≡ bond_count_of gateway }
{
    bond_count(gateway).into()
}

#[unsafe(no_mangle)]
pub extern "C" fn grelfint_bond_bitmap(gateway: Gateway) -> BitmapAnswer
    ensures { result ≡ bond_bitmap_of gateway }
{
    bond_bitmap(gateway).into()
}

#[unsafe(no_mangle)]
pub extern "C" fn grelfint_send(
    gateway: Gateway,
    frame: &[u8],
    hops: u8,
    response_hops: u8,
    delay: u16,
    time: u64,
) -> GatewayAnswer
    ensures { result ≡ send_request gateway (outgoing frame.now hops response_hops delay) time }
{
    send(gateway, frame, hops, response_hops, delay, time)
}

#[unsafe(no_mangle)]
pub extern "C" fn grelfint_release(gateway: Gateway, time: u64, out: &mut [u8]) -> ReleaseAnswer
    ensures { release_result result out.new ≡ release_of gateway time out.old }
{
    release(gateway, time, out)
}
