//! The rows of a centre's tables.
use ber_values::{Oid, Visible};
use item_list::ItemList;
use sbo_device::CommandKind;
use tase_points::{Kind, Layout};

/// The most points of a centre.
pub const POINT_LIMIT: usize = 20000;

/// The most devices of a centre.
pub const DEVICE_LIMIT: usize = 2000;

/// The most peers of a centre.
pub const PEER_LIMIT: usize = 256;

/// The most further tables of a peer.
pub const VARIANT_LIMIT: usize = 15;

/// The most rows of a table.
pub const SEE_LIMIT: usize = 5000;

/// The most transfer sets that a table offers.
pub const SLOT_LIMIT: u64 = 16;

/// The transfer sets that a table offers where it doesn't say.
pub const SLOT_DEFAULT: u32 = 8;

/// The most data sets of a peer.
pub const SET_LIMIT: u64 = 64;

/// The data sets that a peer may define where its table doesn't say.
pub const SET_DEFAULT: u32 = 64;

/// The fewest pending octets of a connection that a table may allow.
pub const PENDING_LEAST: u64 = 1024;

/// The most pending octets of a connection.
pub const PENDING_LIMIT: u64 = 16777216;

/// The pending octets of a connection where its table doesn't say.
pub const PENDING_DEFAULT: u64 = 1048576;

// Definitions cite these limits, so that each stands here as a number too.
const _: () = prove!(POINT_LIMIT == 20_000);

const _: () = prove!(DEVICE_LIMIT == 2_000);

const _: () = prove!(PEER_LIMIT == 256);

const _: () = prove!(VARIANT_LIMIT == 15);

const _: () = prove!(SEE_LIMIT == 5_000);

const _: () = prove!(SLOT_LIMIT == 16);

const _: () = prove!(SLOT_DEFAULT == 8);

const _: () = prove!(SET_LIMIT == 64);

const _: () = prove!(SET_DEFAULT == 64);

const _: () = prove!(PENDING_LEAST == 1_024);

const _: () = prove!(PENDING_LIMIT == 16_777_216);

const _: () = prove!(PENDING_DEFAULT == 1_048_576);

/// A point of the centre.
#[derive(Debug, Drop)]
pub struct PointRow {
    /// One to [`NAME_LIMIT`](crate::NAME_LIMIT) octets.
    pub name: Visible,
    pub kind: Kind,
}

/// A control point of the centre (IEC 60870-6-503, device control).
#[derive(Debug, Drop)]
pub struct DeviceRow {
    /// One to [`NAME_LIMIT`](crate::NAME_LIMIT) octets.
    pub name: Visible,
    pub kind: CommandKind,
    /// Operated without a selection; `checkback` and `span` are 0 then.
    pub direct: bool,
    /// The number by which a selection is answered.
    pub checkback: i16,
    /// How long a selection holds, in milliseconds.
    pub span: u64,
}

/// What a peer's table says of one point.
#[derive(Debug, Drop)]
pub struct See {
    /// The number of the point.
    pub point: u32,
    /// Whether the peer knows the point by a name of the whole device; otherwise by one of its
    /// domain.
    pub vmd: bool,
    /// The components that the peer is shown, in order.
    pub layout: Layout,
}

/// The points of one table, in the order of the file.
pub type Sees = ItemList<See>;

/// What a peer's table says of one device.
#[derive(Debug, Drop)]
pub struct Control {
    /// The number of the device.
    pub device: u32,
    /// Whether the peer may write the device's tag.
    pub tag: bool,
}

/// The devices of one table, in the order of the file.
pub type Controls = ItemList<Control>;

/// A bilateral table of one peer. Its further tables have the key, the title and the pending octets
/// of its own one.
#[derive(Debug, Drop)]
pub struct Table {
    /// Names the peer in this centre's files; an identifier.
    pub key: Visible,
    /// The title by which the peer calls; without one, the table serves callers that give none.
    pub title: Option<Oid>,
    /// The domain under which the peer finds its points; an identifier.
    pub domain: Visible,
    /// The identifier of the bilateral table.
    pub id: Visible,
    pub sees: Sees,
    pub controls: Controls,
    /// How many transfer sets the peer is offered: 1 to [`SLOT_LIMIT`].
    pub slots: u32,
    /// How many data sets the peer may define: 1 to [`SET_LIMIT`].
    pub sets: u32,
    /// The octets that may wait for the peer on a connection: [`PENDING_LEAST`] to
    /// [`PENDING_LIMIT`].
    pub pending: u64,
}
