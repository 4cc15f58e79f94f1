//! What an operator is told of a connection.

use arrayvec::ArrayString;
use bilateral::Centre;
use conn_service::EndWords;
use outside::links::Link;
use std::fmt::{self, Write};
use std::str;
use tase_conn::ConnEnd;

/// A notice has so many octets at most; the longest key and the longest end want fewer.
const MOST_OCTETS: usize = 160;

/// A notice, made without memory.
type Notice = ArrayString<MOST_OCTETS>;

/// Tells that an association of this peer has come about, where there is one now and was none
/// before.
pub(crate) fn note_peer<L: Link>(link: &L, centre: &Centre, before: Option<u32>, now: Option<u32>) {
    if before.is_some() {
        return;
    }
    let Some(peer) = now else {
        return;
    };
    let key = key_of(centre, peer);
    let mut notice = Notice::new();
    if write!(notice, "peer {key} associated").is_ok() {
        link.note(notice.as_str());
    }
}

/// Tells how a connection ended, and of which peer it was, where there was an association.
pub(crate) fn note_end<L: Link>(link: &L, centre: &Centre, peer: Option<u32>, end: ConnEnd) {
    let mut notice = Notice::new();
    if write_end(&mut notice, centre, peer, end).is_ok() {
        link.note(notice.as_str());
    }
}

/// Appends how a connection of this peer ended.
fn write_end(notice: &mut Notice, centre: &Centre, peer: Option<u32>, end: ConnEnd) -> fmt::Result {
    let words = EndWords(end);
    match peer {
        Some(peer) => {
            let key = key_of(centre, peer);
            write!(notice, "peer {key}: {words}")
        }
        None => write!(notice, "{words}"),
    }
}

/// The key of the peer with this number; where there is none, no octet.
fn key_of(centre: &Centre, peer: u32) -> &str {
    if peer >= centre.peers() {
        return "";
    }
    str::from_utf8(centre.table(peer).key.as_slice()).unwrap_or("")
}
