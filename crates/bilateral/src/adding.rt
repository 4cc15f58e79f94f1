//! What a line adds that can be taken.
ghost use Rattle.std.specs.Prelude.{◌≡◌, ◌<◌, ◌≤◌, length, None, OnOk, IsTrue};
ghost use Rattle.bilateral.specs.declared.line.TableLine.TheVariants.{Point, Device, Peer, Slots};
ghost use Rattle.bilateral.specs.declared.line.TableLine.TheVariants.{Sets, Pending, Variant};
ghost use Rattle.bilateral.specs.declared.line.TableLine.TheVariants.{See as SeeLine};
ghost use Rattle.bilateral.specs.declared.line.TableLine.TheVariants.{Control as ControlLine};
ghost use Rattle.tase_points.specs.Layouts.{IsLayout};
ghost use Rattle.bilateral.specs.Words.Words.{is_identifier};
ghost use Rattle.bilateral.specs.Rows.{place_of_see, place_of_control, further_of};
ghost use Rattle.bilateral.specs.Lines.{IsLawfulLine};
ghost use Rattle.bilateral.specs.Reading.{row_fault, current_table, with_row, seen_in_last};
ghost use Rattle.bilateral.specs.Reading.{controlled_in_last, varied};
ghost use Rattle.bilateral.specs.Store.{rows_of, so_far, IsStore};

use crate::limit_rows::LimitRows;
use crate::line::TableLine;
use crate::rows::{
    Control, DEVICE_LIMIT, DeviceRow, PointRow, SEE_LIMIT, See, Table, VARIANT_LIMIT,
};
use crate::store::Store;
use crate::{index, peer_tables};
use ber_values::Visible;
use std::alloc::{AllocError, Global};
use tase_points::Layout;

impl Store {
    /// Takes in what a line says, which nothing stands against.
    pub fn add(&mut self, alloc: Global, line: TableLine) -> Result<(), AllocError>
        requires store { IsStore self.old }
        requires lawful { IsLawfulLine line }
        requires taken { row_fault (so_far self.old) line ≡ None }
        ensures rows { OnOk result (so_far self.new ≡ with_row (so_far self.old) line) }
        ensures store { OnOk result (IsStore self.new) }
    {
        match line {
            TableLine::Point(point) => self.add_point(alloc, point),
            TableLine::Device(device) => self.add_device(alloc, device),
            TableLine::Peer(table) => self.add_peer(alloc, table),
            TableLine::Variant { key, domain, id } => self.add_variant(alloc, key, domain, id),
            TableLine::Slots(number) => {
                self.add_slots(number);
                Ok(())
            }
            TableLine::Sets(number) => {
                self.add_sets(number);
                Ok(())
            }
            TableLine::Pending(number) => {
                self.add_pending(number);
                Ok(())
            }
            TableLine::See { name, vmd, layout } => self.add_see(name, vmd, layout),
            TableLine::Control { name, tag } => self.add_control(name, tag),
        }
    }

    fn add_point(&mut self, alloc: Global, point: PointRow) -> Result<(), AllocError>
        requires store { IsStore self.old }
        requires lawful { IsLawfulLine (Point point) }
        requires taken { row_fault (so_far self.old) (Point point) ≡ None }
        ensures rows { OnOk result (so_far self.new ≡ with_row (so_far self.old) (Point point)) }
        ensures store { OnOk result (IsStore self.new) }
    {
        index::note_name(alloc, &mut self.point_names, point.name.as_slice())?;
        self.points.push(point)?;
        Ok(())
    }

    fn add_device(&mut self, alloc: Global, device: DeviceRow) -> Result<(), AllocError>
        requires store { IsStore self.old }
        requires lawful { IsLawfulLine (Device device) }
        requires taken { row_fault (so_far self.old) (Device device) ≡ None }
        ensures rows { OnOk result (so_far self.new ≡ with_row (so_far self.old) (Device device)) }
        ensures store { OnOk result (IsStore self.new) }
    {
        index::note_name(alloc, &mut self.device_names, device.name.as_slice())?;
        self.devices.push(device)?;
        Ok(())
    }

    fn add_peer(&mut self, alloc: Global, table: Table) -> Result<(), AllocError>
        requires store { IsStore self.old }
        requires lawful { IsLawfulLine (Peer table) }
        requires taken { row_fault (so_far self.old) (Peer table) ≡ None }
        ensures rows { OnOk result (so_far self.new ≡ with_row (so_far self.old) (Peer table)) }
        ensures store { OnOk result (IsStore self.new) }
    {
        index::note_name(alloc, &mut self.keys, table.key.as_slice())?;
        let peer = self.tables.len() as u32;
        let tables = peer_tables::only(alloc, table)?;
        self.tables.push(tables)?;
        self.peer = peer;
        self.given = LimitRows::nothing();
        Ok(())
    }

    fn add_variant(
        &mut self,
        alloc: Global,
        key: Visible,
        domain: Visible,
        id: Visible,
    ) -> Result<(), AllocError>
        requires store { IsStore self.old }
        requires lawful { IsLawfulLine (Variant key domain id) }
        requires taken { row_fault (so_far self.old) (Variant key domain id) ≡ None }
        ensures rows { OnOk result
            (so_far self.new ≡ with_row (so_far self.old) (Variant key domain id)) }
        ensures store { OnOk result (IsStore self.new) }
    {
        let Some(peer) = self.find_peer(key.as_slice()) else {
            unreachable!();
        };
        self.push_variant(alloc, peer, domain, id)
    }

    /// Appends a further table of a peer, to which lines then go.
    fn push_variant(
        &mut self,
        alloc: Global,
        peer: u32,
        domain: Visible,
        id: Visible,
    ) -> Result<(), AllocError>
        requires store { IsStore self.old }
        requires known { peer < length (rows_of self.old).tables }
        requires room { length (further_of (rows_of self.old) peer) < VARIANT_LIMIT }
        requires domain { IsTrue (is_identifier domain) }
        requires id { IsTrue (is_identifier id) }
        ensures rows { OnOk result (so_far self.new ≡ varied (rows_of self.old) peer domain id) }
        ensures store { OnOk result (IsStore self.new) }
    {
        let table = peer_tables::new_variant(alloc, self.table(peer), domain, id)?;
        self.tables[peer as usize].push(table)?;
        self.peer = peer;
        self.given = LimitRows::nothing();
        Ok(())
    }

    fn add_slots(&mut self, number: Option<u32>)
        requires store { IsStore self.old }
        requires lawful { IsLawfulLine (Slots number) }
        requires taken { row_fault (so_far self.old) (Slots number) ≡ None }
        ensures rows { so_far self.new ≡ with_row (so_far self.old) (Slots number) }
        ensures store { IsStore self.new }
    {
        let Some(number) = number else {
            unreachable!();
        };
        peer_tables::set_slots(&mut self.tables[self.peer as usize], number);
        self.given.slots = true;
    }

    fn add_sets(&mut self, number: Option<u32>)
        requires store { IsStore self.old }
        requires lawful { IsLawfulLine (Sets number) }
        requires taken { row_fault (so_far self.old) (Sets number) ≡ None }
        ensures rows { so_far self.new ≡ with_row (so_far self.old) (Sets number) }
        ensures store { IsStore self.new }
    {
        let Some(number) = number else {
            unreachable!();
        };
        peer_tables::set_sets(&mut self.tables[self.peer as usize], number);
        self.given.sets = true;
    }

    fn add_pending(&mut self, number: Option<u64>)
        requires store { IsStore self.old }
        requires lawful { IsLawfulLine (Pending number) }
        requires taken { row_fault (so_far self.old) (Pending number) ≡ None }
        ensures rows { so_far self.new ≡ with_row (so_far self.old) (Pending number) }
        ensures store { IsStore self.new }
    {
        let Some(number) = number else {
            unreachable!();
        };
        peer_tables::set_pending(&mut self.tables[self.peer as usize], number);
        self.given.pending = true;
    }

    fn add_see(
        &mut self,
        name: Visible,
        vmd: bool,
        layout: Option<Layout>,
    ) -> Result<(), AllocError>
        requires store { IsStore self.old }
        requires lawful { IsLawfulLine (SeeLine name vmd layout) }
        requires taken { row_fault (so_far self.old) (SeeLine name vmd layout) ≡ None }
        ensures rows { OnOk result
            (so_far self.new ≡ with_row (so_far self.old) (SeeLine name vmd layout)) }
        ensures store { OnOk result (IsStore self.new) }
    {
        let (Some(point), Some(layout)) = (self.find_point(name.as_slice()), layout) else {
            unreachable!();
        };
        self.push_see(See { point, vmd, layout })
    }

    /// Appends a row to the last table.
    fn push_see(&mut self, see: See) -> Result<(), AllocError>
        requires store { IsStore self.old }
        requires some { 0 < length (rows_of self.old).tables }
        requires known { see.point < length self.old.points.items }
        requires fresh { place_of_see (current_table (so_far self.old)) see.point ≡ None }
        requires room { length (current_table (so_far self.old)).sees < SEE_LIMIT }
        requires layout { IsLayout see.layout }
        ensures rows { OnOk result
            (rows_of self.new ≡ seen_in_last (rows_of self.old) self.old.peer see) }
        ensures peer { OnOk result (self.new.peer ≡ self.old.peer) }
        ensures given { OnOk result (self.new.given ≡ self.old.given) }
        ensures store { OnOk result (IsStore self.new) }
    {
        let variant = self.further(self.peer);
        let place = self.last_table().sees.len() as u32;
        index::note_row(&mut self.sees, self.peer, variant, see.point, place)?;
        peer_tables::push_see(&mut self.tables[self.peer as usize], see)?;
        Ok(())
    }

    fn add_control(&mut self, name: Visible, tag: bool) -> Result<(), AllocError>
        requires store { IsStore self.old }
        requires taken { row_fault (so_far self.old) (ControlLine name tag) ≡ None }
        ensures rows { OnOk result
            (so_far self.new ≡ with_row (so_far self.old) (ControlLine name tag)) }
        ensures store { OnOk result (IsStore self.new) }
    {
        let Some(device) = self.find_device(name.as_slice()) else {
            unreachable!();
        };
        self.push_control(Control { device, tag })
    }

    /// Appends a row for a device to the last table.
    fn push_control(&mut self, control: Control) -> Result<(), AllocError>
        requires store { IsStore self.old }
        requires some { 0 < length (rows_of self.old).tables }
        requires known { control.device < length self.old.devices.items }
        requires fresh { place_of_control (current_table (so_far self.old)) control.device
            ≡ None }
        requires room { length (current_table (so_far self.old)).controls < DEVICE_LIMIT }
        ensures rows { OnOk result
            (rows_of self.new ≡ controlled_in_last (rows_of self.old) self.old.peer control) }
        ensures peer { OnOk result (self.new.peer ≡ self.old.peer) }
        ensures given { OnOk result (self.new.given ≡ self.old.given) }
        ensures store { OnOk result (IsStore self.new) }
    {
        let variant = self.further(self.peer);
        let place = self.last_table().controls.len() as u32;
        index::note_row(
            &mut self.controls,
            self.peer,
            variant,
            control.device,
            place,
        )?;
        peer_tables::push_control(&mut self.tables[self.peer as usize], control)?;
        Ok(())
    }
}
