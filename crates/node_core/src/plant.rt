//! The points and devices of a centre, as they stand.
ghost use Rattle.std.specs.Prelude.{◌≡◌, [], IfOk};
ghost use Rattle.point_db.specs.Stored.{Keeps};
ghost use Rattle.node_core.specs.Devices.DeviceBanks.{IsDeviceBank};
ghost use Rattle.node_core.specs.LastValues.{kinds_of};

use crate::devices::new_bank;
use bilateral::Centre;
use point_db::PointDb;
use sbo_device::DeviceBank;
use std::alloc::{AllocError, Global};
use tase_points::Kind;

/// The points and devices of a centre, as they stand.
#[derive(Drop)]
pub struct Plant {
    /// The last value of each point, and how often it has changed.
    pub points: PointDb,
    /// Who holds each device, its tag, and the orders that the plant hasn't taken.
    pub devices: DeviceBank,
}

impl Plant {
    /// What an empty history gives.
    pub fn new(alloc: Global, centre: &Centre) -> Result<Plant, AllocError>
        ensures points { IfOk result (λ plant. Keeps (kinds_of centre.now) [] plant.points) }
        ensures devices { IfOk result (λ plant. IsDeviceBank centre.now [] plant.devices) }
    {
        let kinds = point_kinds(alloc, centre)?;
        Ok(Plant {
            points: PointDb::new(alloc, kinds.as_slice())?,
            devices: new_bank(alloc, centre)?,
        })
    }
}

/// The kinds of the centre's points.
fn point_kinds(alloc: Global, centre: &Centre) -> Result<Vec<Kind>, AllocError>
    ensures { IfOk result (λ kinds. kinds.items ≡ kinds_of centre.now) }
{
    let mut kinds = Vec::new(alloc);
    for point in 0..centre.points() {
        kinds.push(centre.point(point).kind)?;
    }
    Ok(kinds)
}
