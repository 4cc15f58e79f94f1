//! The octets that a client has said, sent over a link.
ghost use Rattle.std.specs.Prelude.{◌≡◌, ◌≤◌, drop, vec_len};
ghost use Rattle.outside.specs.Links.LinkAnswers.{LinkAnswers};
ghost use Rattle.node_server.specs.Links.LinkUses.{HasHeard};
ghost use Rattle.asking_end.specs.Service.Sends.{SendsOut};
ghost use Rattle.asking_end.specs.Service.Terminals.{IsUnwritten};

use crate::service::terminal::Terminal;
use outside::WriteEnd;

/// How the sends of a turn ended.
#[derive(Clone, Copy, Debug, PartialEq, Eq)]
pub(crate) enum Sent {
    /// Nothing waits any more.
    All,
    /// The link takes nothing now.
    Front,
    /// The link has failed.
    Failed,
}

/// Sends the octets that wait, until none do, or the link takes nothing, or fails.
pub(crate) fn send_out<T: Terminal>(terminal: &mut T, out: &mut Vec<u8>) -> Sent
    ensures sends { (first : LinkAnswers) → HasHeard (T.told terminal.old).link first
        → SendsOut (T.told terminal.old).link (T.told terminal.new).link first
        out.old.items out.new.items result }
    ensures unwritten { IsUnwritten (T.told terminal.old) (T.told terminal.new) }
{
    'sends: while !out.as_slice().is_empty() {
        let waits = out.as_slice();
        match terminal.send(waits) {
            WriteEnd::Took(count) => {
                if count == 0 {
                    return Sent::Front;
                }
                cut(out, count);
            }
            WriteEnd::Failed => return Sent::Failed,
        }
    }
    Sent::All
}

/// Cuts off the first of these octets.
fn cut(octets: &mut Vec<u8>, count: usize)
    requires { count ≤ vec_len octets.old }
    ensures { octets.new.items ≡ drop count octets.old.items }
{
    let left = octets.len() - count;
    octets.copy_within(count.., 0);
    octets.truncate(left);
}
