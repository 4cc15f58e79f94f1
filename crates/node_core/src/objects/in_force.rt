//! The table of a peer that is in force.
ghost use Rattle.std.specs.Prelude.{◌≡◌, ◌<◌, true, length, is_some, IfSome, Contains};
ghost use Rattle.std.specs.Option.{option_copied};
ghost use Rattle.bilateral.specs.Rows.{IsCentre, IsTable, IsControlling, IsDevice, point_of};
ghost use Rattle.bilateral.specs.Rows.{device_of, place_of_see, place_of_device};
ghost use Rattle.node_core.specs.Objects.Found.{table_at, IsThere, row_named};

use bilateral::{Centre, Control, DeviceRow, PointRow, See, Table};
use std::marker::Model;

/// The table of a peer that is in force.
#[derive(Drop)]
pub struct InForce<'a> {
    centre: &'a Centre,
    peer: u32,
    variant: u32,
}

impl<'a> Model for InForce<'a> {
    ghost use Rattle.node_core.specs.Objects.Found.{TableInForce, table_at, IsThere};

    ghost Value = { TableInForce };

    ghost view = { λ t. table_at t.centre.now t.peer t.variant };

    ghost invariant = { λ t. IsThere t.centre.now t.peer t.variant };
}

impl<'a> InForce<'a> {
    /// One of a peer's tables; the first is 0.
    pub fn new(centre: &'a Centre, peer: u32, variant: u32) -> InForce<'a>
        requires { IsThere centre.now peer variant }
        ensures { result ≡ table_at centre.now peer variant }
    {
        InForce {
            centre,
            peer,
            variant,
        }
    }

    /// The table itself.
    pub fn table(&self) -> &'a Table
        ensures table { result.now ≡ self.now.table }
        ensures centre { IsCentre self.now.rows }
        ensures lawful { IsTable (length self.now.rows.points) self.now.table }
        ensures controls { IsControlling (length self.now.rows.devices) self.now.table }
    {
        self.centre.variant(self.peer, self.variant)
    }

    /// The point with this number.
    pub fn point(&self, point: u32) -> &'a PointRow
        requires { point < length self.now.rows.points }
        ensures { result.now ≡ point_of self.now.rows point }
    {
        self.centre.point(point)
    }

    /// The device of a row of the table.
    pub fn device(&self, control: &Control) -> &'a DeviceRow
        requires { Contains self.now.table.controls control.now }
        ensures row { result.now ≡ device_of self.now.rows control.now.device }
        ensures lawful { IsDevice result.now }
    {
        self.centre.device(control.device)
    }

    /// Whether a device of the centre has this name.
    pub fn is_device(&self, name: &[u8]) -> bool
        ensures { result ≡ is_some (place_of_device self.now.rows name.now) }
    {
        self.centre.find_device(name).is_some()
    }

    /// The table's row for the point with this name.
    pub fn find_row(&self, name: &[u8]) -> Option<&'a See>
        ensures named { option_copied result ≡ row_named self.now name.now }
        ensures there { IfSome result (λ see. is_some
            (place_of_see self.now.table see.now.point) ≡ true) }
    {
        let point = self.centre.find_point(name)?;
        let place = self.centre.find_see(self.peer, self.variant, point)?;
        Some(&self.table().sees.as_slice()[place as usize])
    }
}
