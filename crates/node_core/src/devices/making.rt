//! The devices of a centre at the beginning of its history.
ghost use Rattle.std.specs.Prelude.{◌≡◌, [], length, IfOk};
ghost use Rattle.node_core.specs.Devices.DeviceBanks.{IsDeviceBank};

use bilateral::Centre;
use sbo_device::DeviceBank;
use std::alloc::{AllocError, Global};

/// The devices of a centre, all free and without tags, and no orders.
pub fn new_bank(alloc: Global, centre: &Centre) -> Result<DeviceBank, AllocError>
    ensures { IfOk result (λ bank. IsDeviceBank centre.now [] bank) }
{
    let mut bank = DeviceBank::new(alloc);
    for number in 0..centre.devices() {
        let row = centre.device(number);
        bank.push(alloc, row.kind, row.direct, row.span)?;
    }
    Ok(bank)
}
