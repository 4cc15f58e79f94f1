ghost use Rattle.std.specs.Prelude.{◌≡◌, ◌<◌, ◌≤◌, length, Some, slice_get};
ghost use Rattle.std.specs.Option.{option_copied};
ghost use Rattle.bilateral.specs.Rows.{IsCentre, place_of_point, place_of_device, place_of_peer};
ghost use Rattle.bilateral.specs.Rows.{place_of_title, place_of_see, place_of_control};
ghost use Rattle.bilateral.specs.Rows.{variants_of, variant_of};

use crate::rows::{DeviceRow, PointRow, Table};
use crate::store::Store;
use ber_values::Oid;
use std::marker::Model;

/// The points and devices of a centre and its peers' tables. Points, devices and peers are numbered
/// from 0 in the order of the file, and so are the tables of a peer, the own one of its line being
/// number 0.
#[derive(Debug, Drop)]
pub struct Centre {
    store: Store,
}

impl Model for Centre {
    ghost use Rattle.bilateral.specs.Rows.{CentreRows};
    ghost use Rattle.bilateral.specs.Store.{rows_of, IsStore};

    ghost Value = { CentreRows };

    ghost view = { λ c. rows_of c.store };

    ghost invariant = { λ c. IsStore c.store };
}

impl Centre {
    ghost use Rattle.bilateral.specs.Store.{rows_of, IsStore};

    pub(crate) fn new(store: Store) -> Centre
        requires { IsStore store }
        ensures { result ≡ rows_of store }
    {
        Centre { store }
    }

    /// How many points there are.
    pub fn points(&self) -> u32
        ensures count { result ≡ length self.now.points }
        ensures lawful { IsCentre self.now }
    {
        self.store.points.len() as u32
    }

    /// How many devices there are.
    pub fn devices(&self) -> u32
        ensures count { result ≡ length self.now.devices }
        ensures lawful { IsCentre self.now }
    {
        self.store.devices.len() as u32
    }

    /// How many peers there are.
    pub fn peers(&self) -> u32
        ensures count { result ≡ length self.now.tables }
        ensures lawful { IsCentre self.now }
    {
        self.store.peers() as u32
    }

    /// The point with this number.
    pub fn point(&self, point: u32) -> &PointRow
        requires { point < length self.now.points }
        ensures { slice_get self.now.points point ≡ Some result.now }
    {
        &self.store.points[point as usize]
    }

    /// The device with this number.
    pub fn device(&self, device: u32) -> &DeviceRow
        requires { device < length self.now.devices }
        ensures { slice_get self.now.devices device ≡ Some result.now }
    {
        &self.store.devices[device as usize]
    }

    /// The own table of the peer with this number.
    pub fn table(&self, peer: u32) -> &Table
        requires { peer < length self.now.tables }
        ensures { slice_get self.now.tables peer ≡ Some result.now }
    {
        self.store.table(peer)
    }

    /// How many tables the peer with this number has, its own one among them.
    pub fn variants(&self, peer: u32) -> u32
        requires { peer < length self.now.tables }
        ensures count { result ≡ length (variants_of self.now peer) }
        ensures least { 1 ≤ result }
        ensures most { result ≤ 16 }
    {
        self.store.further(peer) + 1
    }

    /// One of the tables of the peer with this number, its own one being number 0.
    pub fn variant(&self, peer: u32, variant: u32) -> &Table
        requires peer { peer < length self.now.tables }
        requires variant { variant < length (variants_of self.now peer) }
        ensures { slice_get (variants_of self.now peer) variant ≡ Some result.now }
    {
        self.store.variant(peer, variant)
    }

    /// The number of the point with this name.
    pub fn find_point(&self, name: &[u8]) -> Option<u32>
        ensures { result ≡ place_of_point self.now name.now }
    {
        self.store.find_point(name)
    }

    /// The number of the device with this name.
    pub fn find_device(&self, name: &[u8]) -> Option<u32>
        ensures { result ≡ place_of_device self.now name.now }
    {
        self.store.find_device(name)
    }

    /// The number of the peer with this key.
    pub fn find_peer(&self, key: &[u8]) -> Option<u32>
        ensures { result ≡ place_of_peer self.now key.now }
    {
        self.store.find_peer(key)
    }

    /// Where one of the peer's tables has its row for a point.
    pub fn find_see(&self, peer: u32, variant: u32, point: u32) -> Option<u32>
        requires peer { peer < length self.now.tables }
        requires variant { variant < length (variants_of self.now peer) }
        ensures { result ≡ place_of_see (variant_of self.now peer variant) point }
    {
        self.store.find_see(peer, variant, point)
    }

    /// Where one of the peer's tables has its row for a device.
    pub fn find_control(&self, peer: u32, variant: u32, device: u32) -> Option<u32>
        requires peer { peer < length self.now.tables }
        requires variant { variant < length (variants_of self.now peer) }
        ensures { result ≡ place_of_control (variant_of self.now peer variant) device }
    {
        self.store.find_control(peer, variant, device)
    }

    /// The number of the peer with this title, or of the one that has none.
    fn find_title(&self, title: Option<&Oid>) -> Option<u32>
        ensures { result ≡ place_of_title self.now (option_copied title.entry) }
    {
        self.store.find_title(title)
    }
}

/// The number of the peer that calls by this title; without a title, of the peer whose table serves
/// callers that give none.
pub fn peer_of(centre: &Centre, title: Option<&Oid>) -> Option<u32>
    ensures { result ≡ place_of_title centre.now (option_copied title.entry) }
{
    centre.find_title(title)
}
