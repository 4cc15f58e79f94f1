//! What a link gives, taken in.
ghost use Rattle.std.specs.Prelude.{◌≡◌, ◌<◌, ◌≤◌, length};
ghost use Rattle.outside.specs.Links.LinkAnswers.{LinkAnswers};
ghost use Rattle.tase_conn.specs.Talking.{IsResting};
ghost use Rattle.tase_conn.specs.Places.{IsPlaced};
ghost use Rattle.node_server.specs.Links.LinkUses.{HasHeard};
ghost use Rattle.node_server.specs.Links.Receiving.{ReceivesOnce};

use outside::links::{Link, Recv};
use tase_conn::Conn;

/// So many octets are received at a time, at most.
pub const PIECE: usize = 16_384;

/// How a turn's recv ended.
#[derive(Clone, Copy, Debug, PartialEq, Eq)]
pub enum Intake {
    /// What it gave was taken in.
    Taken,
    /// Memory was wanting for that.
    Memory,
    /// The link has failed.
    Failed,
}

/// Receives once, and takes in what the link gives.
pub fn receive<L: Link>(link: &mut L, conn: &mut Conn, room: &mut [u8]) -> Intake
    requires some { 0 < length room.old }
    requires few { length room.old ≤ PIECE }
    requires resting { IsResting conn.old }
    requires placed { IsPlaced conn.old }
    ensures { (first : LinkAnswers) → HasHeard (L.told link.old) first
        → ReceivesOnce (L.told link.old) (L.told link.new) first conn.old conn.new result }
{
    match link.recv(room) {
        Recv::Got(count) => match conn.take_in(&room[..count]) {
            Ok(()) => Intake::Taken,
            Err(_) => Intake::Memory,
        },
        Recv::Idle => {
            conn.idle_in();
            Intake::Taken
        }
        Recv::End => {
            conn.end_in();
            Intake::Taken
        }
        Recv::Failed => Intake::Failed,
    }
}
