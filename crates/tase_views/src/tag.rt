ghost use Rattle.std.specs.Prelude.{◌≡◌, ◌≤◌};
ghost use Rattle.sbo_device.specs.declared.device.TheConstants.{TAG_LIMIT};

use ber_values::Visible;
use std::alloc::AllocError;
use std::marker::Model;

/// A tag of a device, 0 to [`TAG_LIMIT`](sbo_device::TAG_LIMIT), and why the device was tagged
/// (IEC 60870-6-802, tag).
#[derive(Debug, Drop)]
pub struct DeviceTag {
    tag: u8,
    reason: Visible,
}

impl Model for DeviceTag {
    ghost use Rattle.std.specs.Prelude.{◌≤◌};
    ghost use Rattle.sbo_device.specs.declared.device.TheConstants.{TAG_LIMIT};
    ghost use Rattle.sbo_device.specs.Moves.{Tag};

    ghost Value = { Tag };

    ghost view = { λ tag. record { tag = tag.tag; reason = tag.reason } };

    ghost invariant = { λ tag. tag.tag ≤ TAG_LIMIT };
}

impl DeviceTag {
    pub fn new(tag: u8, reason: Visible) -> DeviceTag
        requires { tag ≤ TAG_LIMIT }
        ensures { result ≡ record { tag = tag; reason = reason } }
    {
        DeviceTag { tag, reason }
    }

    pub fn tag(&self) -> u8
        ensures value { result ≡ self.now.tag }
        ensures limit { result ≤ TAG_LIMIT }
    {
        self.tag
    }

    pub fn reason(&self) -> &Visible
        ensures { result.now ≡ self.now.reason }
    {
        &self.reason
    }
}

impl Clone for DeviceTag {
    ghost is_clone = { λ tag copy. copy ≡ tag };

    fn clone(&self) -> Result<DeviceTag, AllocError> {
        Ok(DeviceTag {
            tag: self.tag,
            reason: self.reason.clone()?,
        })
    }
}
