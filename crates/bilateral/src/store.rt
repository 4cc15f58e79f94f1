//! The rows of a centre while its tables are read.
ghost use Rattle.std.specs.Prelude.{◌≡◌, ◌<◌, length, map, IfSome, position, bytes_eq, Some};
ghost use Rattle.std.specs.Prelude.{slice_get};
ghost use Rattle.std.specs.Option.{option_copied, option_eq};
ghost use Rattle.bilateral.specs.Rows.{place_of_point, place_of_device, place_of_peer};
ghost use Rattle.bilateral.specs.Rows.{place_of_see, place_of_control, place_of_title};
ghost use Rattle.bilateral.specs.Rows.{variant_of, variants_of, further_of, table_of};
ghost use Rattle.bilateral.specs.Reading.{at_start};
ghost use Rattle.bilateral.specs.Reading as reading;
ghost use Rattle.bilateral.specs.Store.{rows_of, so_far, own_of, IsStore};

use crate::index::{self, NameSet, RowIndex};
use crate::limit_rows::LimitRows;
use crate::rows::{DeviceRow, PointRow, Table};
use ber_values::Oid;
use std::alloc::Global;

/// The rows of a centre with the indexes beside them.
#[derive(Debug, Drop)]
pub struct Store {
    pub points: Vec<PointRow>,
    pub devices: Vec<DeviceRow>,
    /// The tables of each peer, the own one first.
    pub tables: Vec<Vec<Table>>,
    pub point_names: NameSet,
    pub device_names: NameSet,
    pub keys: NameSet,
    pub sees: RowIndex,
    pub controls: RowIndex,
    /// The peer to whose last table lines go.
    pub peer: u32,
    pub given: LimitRows,
}

impl Store {
    pub fn new(alloc: Global) -> Store
        ensures rows { so_far result ≡ at_start }
        ensures store { IsStore result }
    {
        Store {
            points: Vec::new(alloc),
            devices: Vec::new(alloc),
            tables: Vec::new(alloc),
            point_names: index::no_names(alloc),
            device_names: index::no_names(alloc),
            keys: index::no_names(alloc),
            sees: index::no_rows(alloc),
            controls: index::no_rows(alloc),
            peer: 0,
            given: LimitRows::nothing(),
        }
    }

    pub fn find_point(&self, name: &[u8]) -> Option<u32>
        requires { IsStore self.now }
        ensures { result ≡ place_of_point (rows_of self.now) name.now }
    {
        index::find_name(&self.point_names, name)
    }

    pub fn find_device(&self, name: &[u8]) -> Option<u32>
        requires { IsStore self.now }
        ensures { result ≡ place_of_device (rows_of self.now) name.now }
    {
        index::find_name(&self.device_names, name)
    }

    pub fn find_peer(&self, key: &[u8]) -> Option<u32>
        requires { IsStore self.now }
        ensures { result ≡ place_of_peer (rows_of self.now) key.now }
    {
        index::find_name(&self.keys, key)
    }

    /// The number of the peer with this title, or of the one that has none.
    pub fn find_title(&self, title: Option<&Oid>) -> Option<u32>
        requires { IsStore self.now }
        ensures { result ≡ place_of_title (rows_of self.now) (option_copied title.entry) }
    {
        Some(title_place(self.tables.as_slice(), title)? as u32)
    }

    pub fn find_see(&self, peer: u32, variant: u32, point: u32) -> Option<u32>
        requires { IsStore self.now }
        ensures { result ≡ place_of_see (variant_of (rows_of self.now) peer variant) point }
    {
        index::find_row(&self.sees, peer, variant, point)
    }

    pub fn find_control(&self, peer: u32, variant: u32, device: u32) -> Option<u32>
        requires { IsStore self.now }
        ensures { result ≡ place_of_control (variant_of (rows_of self.now) peer variant) device }
    {
        index::find_row(&self.controls, peer, variant, device)
    }

    /// How many peers there are.
    pub fn peers(&self) -> usize
        requires { IsStore self.now }
        ensures { result ≡ length (rows_of self.now).tables }
    {
        self.tables.len()
    }

    /// The own table of a peer.
    pub fn table(&self, peer: u32) -> &Table
        requires store { IsStore self.now }
        requires peer { peer < length (rows_of self.now).tables }
        ensures value { result.now ≡ table_of (rows_of self.now) peer }
        ensures listed { slice_get (rows_of self.now).tables peer ≡ Some result.now }
    {
        let tables = &self.tables[peer as usize];
        &tables[0]
    }

    /// One of a peer's tables.
    pub fn variant(&self, peer: u32, variant: u32) -> &Table
        requires store { IsStore self.now }
        requires peer { peer < length (rows_of self.now).tables }
        requires variant { variant < length (variants_of (rows_of self.now) peer) }
        ensures { slice_get (variants_of (rows_of self.now) peer) variant ≡ Some result.now }
    {
        let tables = &self.tables[peer as usize];
        &tables[variant as usize]
    }

    /// How many further tables a peer has.
    pub fn further(&self, peer: u32) -> u32
        requires store { IsStore self.now }
        requires peer { peer < length (rows_of self.now).tables }
        ensures { result ≡ length (further_of (rows_of self.now) peer) }
    {
        (self.tables[peer as usize].len() - 1) as u32
    }

    /// The table to which lines go.
    pub fn last_table(&self) -> &Table
        requires store { IsStore self.now }
        requires some { 0 < length (rows_of self.now).tables }
        ensures { result.now ≡ reading.last_table (rows_of self.now) self.now.peer }
    {
        let tables = &self.tables[self.peer as usize];
        &tables[tables.len() - 1]
    }
}

/// The place of the peer whose own table has a title, or of the one whose has none.
fn title_place(peers: &[Vec<Table>], title: Option<&Oid>) -> Option<usize>
    ensures place { result
        ≡ position (λ table. option_eq bytes_eq table.title (option_copied title.entry))
        (map own_of (map (λ tables. tables.items) peers.now)) }
    ensures within { IfSome result (λ place. place < length peers.now) }
{
    titled_place(peers, title)
}

/// The first of some lists of tables whose first table has a title, or has none.
fn titled_place(peers: &[Vec<Table>], title: Option<&Oid>) -> Option<usize>
    ensures place { result
        ≡ position
        (λ tables. option_eq bytes_eq (own_of tables.items).title (option_copied title.entry))
        peers.now }
    ensures within { IfSome result (λ place. place < length peers.now) }
{
    peers.iter().position(|tables| is_titled(tables, title))
}

/// Whether the first of some tables has this title, or both are none.
fn is_titled(tables: &Vec<Table>, title: Option<&Oid>) -> bool
    ensures { result
        ≡ option_eq bytes_eq (own_of tables.now.items).title (option_copied title.entry) }
{
    match tables.first() {
        Some(own) => is_title(&own.title, title),
        None => title.is_none(),
    }
}

/// Whether a title is this one, or both are none.
fn is_title(own: &Option<Oid>, title: Option<&Oid>) -> bool
    ensures { result ≡ option_eq bytes_eq own.now (option_copied title.entry) }
{
    match (own, title) {
        (Some(own), Some(title)) => own == title,
        (None, None) => true,
        _ => false,
    }
}
