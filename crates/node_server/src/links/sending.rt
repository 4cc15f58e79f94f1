//! The octets that wait, sent over a link.
ghost use Rattle.std.specs.Prelude.{◌≡◌};
ghost use Rattle.outside.specs.Links.LinkAnswers.{LinkAnswers};
ghost use Rattle.node_server.specs.Links.LinkUses.{HasHeard};
ghost use Rattle.node_server.specs.Links.Sending.{SendsPending};

use outside::WriteEnd;
use outside::links::Link;
use tase_conn::Conn;

/// How the sends of a turn ended.
#[derive(Clone, Copy, Debug, PartialEq, Eq)]
pub enum SendsEnd {
    /// Nothing waits any more.
    AllTaken,
    /// The link takes nothing now.
    NoneTaken,
    /// The link has failed.
    Failed,
}

/// Sends what waits, until nothing does, or the link takes nothing, or fails.
pub fn send_pending<L: Link>(link: &mut L, conn: &mut Conn) -> SendsEnd
    ensures { (first : LinkAnswers) → HasHeard (L.told link.old) first
        → SendsPending (L.told link.old) (L.told link.new) first conn.old conn.new result }
{
    while !conn.pending().is_empty() {
        match link.send(conn.pending()) {
            WriteEnd::Took(count) => {
                if count == 0 {
                    return SendsEnd::NoneTaken;
                }
                conn.sent(count);
            }
            WriteEnd::Failed => return SendsEnd::Failed,
        }
    }
    SendsEnd::AllTaken
}
