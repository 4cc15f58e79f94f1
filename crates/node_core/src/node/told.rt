//! What the history of a node has come to: each call looks it up, and takes no memory.
ghost use Rattle.std.specs.Prelude.{◌≡◌, ◌<◌, ◌≤◌, length, reverse};
ghost use Rattle.std.specs.Option.{option_copied};
ghost use Rattle.bilateral.specs.Rows.{device_of, variants_of};
ghost use Rattle.point_db.specs.Updates.{last_given};
ghost use Rattle.sbo_device.specs.declared.device.TheConstants.{TAG_LIMIT};
ghost use Rattle.sbo_device.specs.States.{tag_of};
ghost use Rattle.tase_views.specs.History.{association_in, last_tick};
ghost use Rattle.tase_views.specs.OwnTables.{own_tables};
ghost use Rattle.tase_views.specs.Devices.{device_moves};
ghost use Rattle.tase_views.specs.View.{moves_in, steps_in, view_of};
ghost use Rattle.tase_views.specs.Chosen.{chosen_in};
ghost use Rattle.tase_views.specs.Given.{updates_of};
ghost use Rattle.tase_views.specs.Listed.{sets_listed};
ghost use Rattle.tase_views.specs.Lived.{IsLived};

use super::Node;
use ber_values::Visible;
use data_sets::SetBook;
use sbo_device::Key;
use tase_points::PointValue;

impl Node {
    /// The moment of the last tick, in milliseconds since 1970; before any, 0.
    pub fn last_tick(&self) -> u64
        ensures { result ≡ last_tick (reverse self.now.history) }
    {
        self.hub.last_tick()
    }

    /// The open association of a seat, if it has one.
    pub fn association(&self, who: u64) -> Option<Key>
        ensures { result ≡ association_in (reverse self.now.history) who }
    {
        self.hub.association(who)
    }

    /// The number of the table of a peer that was chosen last. It is the one in force, or it waits
    /// until the peer has no open association.
    pub fn chosen(&self, peer: u32) -> u32
        requires { peer < length self.now.setup.centre.tables }
        ensures chosen { result
            ≡ chosen_in (view_of self.now.setup.centre peer (reverse self.now.history)) }
        ensures there { result < length (variants_of self.now.setup.centre peer) }
    {
        self.parts.part(peer).chosen_last
    }

    /// The value that a point, by its number, was given last; none where it was never given one.
    pub fn last_update(&self, point: u32) -> Option<&PointValue>
        requires { point < length self.now.setup.centre.points }
        ensures { option_copied result
            ≡ last_given (updates_of (reverse self.now.history)) point }
    {
        self.hub.plant.points.last_update(point)
    }

    /// The tag of a device, by its number; before any, 0 (IEC 60870-6-802, tag values).
    pub fn tag(&self, device: u32) -> u8
        requires { device < length self.now.setup.centre.devices }
        ensures value { let rows = self.now.setup.centre in
            let steps = steps_in rows (own_tables rows) (moves_in (reverse self.now.history)) in
            result ≡ (tag_of (device_moves (device_of rows device).name steps)).tag }
        ensures lawful { result ≤ TAG_LIMIT }
    {
        self.hub.plant.devices.tag_of(device)
    }

    /// Why a device, by its number, was tagged last; before any tag, empty.
    pub fn tag_reason(&self, device: u32) -> &Visible
        requires { device < length self.now.setup.centre.devices }
        ensures { let rows = self.now.setup.centre in
            let steps = steps_in rows (own_tables rows) (moves_in (reverse self.now.history)) in
            result.now ≡ (tag_of (device_moves (device_of rows device).name steps)).reason }
    {
        self.hub.plant.devices.reason_of(device)
    }

    /// The data sets of a peer, in the order in which they were defined.
    pub fn data_sets(&self, peer: u32) -> &SetBook
        requires { peer < length self.now.setup.centre.tables }
        ensures { let rows = self.now.setup.centre in result.now.sets
            ≡ sets_listed (own_tables rows peer) (view_of rows peer (reverse self.now.history)) }
    {
        &self.parts.part(peer).book
    }

    /// Each entry of the history was taken: none was refused for what its seat had done, what it
    /// names, or the clock.
    pub fn history_is_lived(&self)
        ensures { IsLived self.now.setup.centre (reverse self.now.history) }
    {
        let _log = &self.log;
    }
}
