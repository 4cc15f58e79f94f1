//! Why the lines so far can't take a line.
ghost use Rattle.std.specs.Prelude.{◌≡◌, ◌==◌, ◌||◌, ◌<◌, not, false, length, is_some};
ghost use Rattle.bilateral.specs.declared.line.TableLine.TheVariants.{Point, Device, Peer};
ghost use Rattle.bilateral.specs.declared.line.TableLine.TheVariants.{See, Control, Variant};
ghost use Rattle.bilateral.specs.Rows.{place_of_title, place_of_see, place_of_control};
ghost use Rattle.bilateral.specs.Rows.{further_of};
ghost use Rattle.bilateral.specs.Reading.{row_fault, first_reason};
ghost use Rattle.bilateral.specs.Reading as own;
ghost use Rattle.bilateral.specs.Store.{rows_of, so_far, IsStore};

use crate::fault::TableWhy;
use crate::line::TableLine;
use crate::rows::{
    DEVICE_LIMIT, DeviceRow, PEER_LIMIT, POINT_LIMIT, PointRow, SEE_LIMIT, Table, VARIANT_LIMIT,
};
use crate::store::Store;
use ber_values::Visible;
use sbo_device::SPAN_LIMIT;
use tase_points::Layout;

impl Store {
    /// Why the lines so far can't take a line: the first reason in the order of the profile.
    pub fn fault(&self, line: &TableLine) -> Option<TableWhy>
        requires { IsStore self.now }
        ensures { result ≡ row_fault (so_far self.now) line.now }
    {
        match line {
            TableLine::Point(point) => self.point_fault(point),
            TableLine::Device(device) => self.device_fault(device),
            TableLine::Peer(table) => self.peer_fault(table),
            TableLine::Variant { key, domain, id } => self.variant_fault(key, domain, id),
            TableLine::Slots(number) => self.given_fault(self.given.slots, number.is_none()),
            TableLine::Sets(number) => self.given_fault(self.given.sets, number.is_none()),
            TableLine::Pending(number) => self.pending_fault(number.is_none()),
            TableLine::See { name, vmd, layout } => self.see_fault(name, *vmd, layout),
            TableLine::Control { name, tag } => self.control_fault(name, *tag),
        }
    }

    /// Whether a point or a device has this name.
    fn is_named(&self, name: &[u8]) -> bool
        requires { IsStore self.now }
        ensures { result ≡ own.is_named (rows_of self.now) name.now }
    {
        self.find_point(name).is_some() || self.find_device(name).is_some()
    }

    fn point_fault(&self, point: &PointRow) -> Option<TableWhy>
        requires { IsStore self.now }
        ensures { result ≡ row_fault (so_far self.now) (Point point.now) }
    {
        if self.peers() != 0 {
            Some(TableWhy::Place)
        } else if self.is_named(point.name.as_slice()) {
            Some(TableWhy::Again)
        } else {
            limit_fault(self.points.len() >= POINT_LIMIT)
        }
    }

    fn device_fault(&self, device: &DeviceRow) -> Option<TableWhy>
        requires { IsStore self.now }
        ensures { result ≡ row_fault (so_far self.now) (Device device.now) }
    {
        if self.peers() != 0 {
            Some(TableWhy::Place)
        } else if self.is_named(device.name.as_slice()) {
            Some(TableWhy::Again)
        } else {
            limit_fault(self.devices.len() >= DEVICE_LIMIT || is_wrong_span(device))
        }
    }

    fn peer_fault(&self, table: &Table) -> Option<TableWhy>
        requires { IsStore self.now }
        ensures { result ≡ row_fault (so_far self.now) (Peer table.now) }
    {
        if self.find_peer(table.key.as_slice()).is_some() || self.has_title(table) {
            Some(TableWhy::Again)
        } else {
            limit_fault(self.peers() >= PEER_LIMIT)
        }
    }

    /// Whether a peer has the title of this one, or also none.
    fn has_title(&self, table: &Table) -> bool
        requires { IsStore self.now }
        ensures { result ≡ is_some (place_of_title (rows_of self.now) table.now.title) }
    {
        self.find_title(table.title.as_ref()).is_some()
    }

    fn variant_fault(&self, key: &Visible, domain: &Visible, id: &Visible) -> Option<TableWhy>
        requires { IsStore self.now }
        ensures { result ≡ row_fault (so_far self.now) (Variant key.now domain.now id.now) }
    {
        let Some(peer) = self.find_peer(key.as_slice()) else {
            return Some(TableWhy::Unknown);
        };
        limit_fault(self.further(peer) as usize >= VARIANT_LIMIT)
    }

    /// Why a limit of the last table can't be taken: there is none, it was given, it is past.
    fn given_fault(&self, given: bool, past: bool) -> Option<TableWhy>
        requires { IsStore self.now }
        ensures { result ≡ first_reason (length (rows_of self.now).tables == 0) false given past }
    {
        if self.peers() == 0 {
            Some(TableWhy::Place)
        } else if given {
            Some(TableWhy::Again)
        } else {
            limit_fault(past)
        }
    }

    /// The same of the pending octets, which a further table can't be given.
    fn pending_fault(&self, past: bool) -> Option<TableWhy>
        requires { IsStore self.now }
        ensures { result
            ≡ first_reason
            (length (rows_of self.now).tables == 0
            || not (length (further_of (rows_of self.now) self.now.peer) == 0)) false
            self.now.given.pending past }
    {
        if self.peers() == 0 || self.further(self.peer) != 0 {
            Some(TableWhy::Place)
        } else if self.given.pending {
            Some(TableWhy::Again)
        } else {
            limit_fault(past)
        }
    }

    fn see_fault(&self, name: &Visible, vmd: bool, layout: &Option<Layout>) -> Option<TableWhy>
        requires { IsStore self.now }
        ensures { result ≡ row_fault (so_far self.now) (See name.now vmd layout.now) }
    {
        if self.peers() == 0 {
            return Some(TableWhy::Place);
        }
        let Some(point) = self.find_point(name.as_slice()) else {
            return Some(TableWhy::Unknown);
        };
        if layout.is_none() || self.find_last_see(point).is_some() {
            Some(TableWhy::Again)
        } else {
            limit_fault(self.last_table().sees.len() >= SEE_LIMIT)
        }
    }

    fn control_fault(&self, name: &Visible, tag: bool) -> Option<TableWhy>
        requires { IsStore self.now }
        ensures { result ≡ row_fault (so_far self.now) (Control name.now tag) }
    {
        if self.peers() == 0 {
            return Some(TableWhy::Place);
        }
        let Some(device) = self.find_device(name.as_slice()) else {
            return Some(TableWhy::Unknown);
        };
        if self.find_last_control(device).is_some() {
            Some(TableWhy::Again)
        } else {
            limit_fault(self.last_table().controls.len() >= DEVICE_LIMIT)
        }
    }

    /// Where the table to which lines go has its row for a point.
    fn find_last_see(&self, point: u32) -> Option<u32>
        requires store { IsStore self.now }
        requires some { 0 < length (rows_of self.now).tables }
        ensures { result ≡ place_of_see (own.last_table (rows_of self.now) self.now.peer) point }
    {
        self.find_see(self.peer, self.further(self.peer), point)
    }

    /// Where the table to which lines go has its row for a device.
    fn find_last_control(&self, device: u32) -> Option<u32>
        requires store { IsStore self.now }
        requires some { 0 < length (rows_of self.now).tables }
        ensures { result
            ≡ place_of_control (own.last_table (rows_of self.now) self.now.peer) device }
    {
        self.find_control(self.peer, self.further(self.peer), device)
    }
}

/// One row too many, or a number past its limit.
fn limit_fault(past: bool) -> Option<TableWhy>
    ensures { result ≡ first_reason false false false past }
{
    if past { Some(TableWhy::Limit) } else { None }
}

/// Whether a device that isn't direct has a span that no selection may have.
fn is_wrong_span(device: &DeviceRow) -> bool
    ensures { result ≡ own.is_wrong_span device.now }
{
    !device.direct && !(1 <= device.span && device.span <= SPAN_LIMIT)
}
