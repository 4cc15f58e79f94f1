//! A client: the calling end of an association that plays a script over a centre's tables.
ghost use Rattle.std.specs.Prelude.{◌≡◌, ℕ, ◌≤◌, ◌<◌, List, [], ◌++◌, length, Some, Ok, Err};
ghost use Rattle.std.specs.Prelude.{IfOk, OnOk, OnErr, IsErr, MatchResult, unwrap_or};
ghost use Rattle.std.specs.Arc.{arc_value};
ghost use Rattle.tpkt_cotp.specs.declared.limits.TheConstants.{PIECE_LIMIT};
ghost use Rattle.bilateral.specs.Rows.{CentreRows as AnyRows, table_of};
ghost use Rattle.asking_end.specs.declared.end.AskEnd.{AskEnd as AnyEnd};
ghost use Rattle.asking_end.specs.declared.end.AskEnd.TheVariants as ends;
ghost use Rattle.centre_client.specs.declared.play.Checkback.{Checkback as AnyCheckback};
ghost use Rattle.centre_client.specs.declared.script.Script.{Script as AnyScript};
ghost use Rattle.centre_client.specs.declared.fault.ScriptFault.{ScriptFault as Fault};
ghost use Rattle.centre_client.specs.Scripts.{IsScript, HasScriptFault, IsScriptText};
ghost use Rattle.centre_client.specs.Scripted.{title_of, scripted};
ghost use Rattle.centre_client.specs.Clients.{client_of, line_done, ClientStands, ClientTakes};
ghost use Rattle.centre_client.specs.Clients.{IsCalling};

use crate::agenda::ScriptPlay;
use crate::fault::ScriptFault;
use crate::play::Checkback;
use crate::script::{Script, read_script};
use asking_end::{AskEnd, AskingEnd, Awaiting};
use ber_values::Oid;
use bilateral::Centre;
use std::alloc::{AllocError, Global};
use std::sync::Arc;

/// The calling end of an association, which plays a script over what its peer gives.
#[derive(Drop)]
pub struct Client {
    asking: AskingEnd<ScriptPlay>,
}

impl Client {
    /// A client of a centre's tables that is to play the script with this text. It appends what it
    /// says before anything has come. Where the text is no script, whose first bad line it answers,
    /// or memory is short, `out` is as before. A bad line is answered whether memory is left or
    /// not.
    pub fn new(
        alloc: Global,
        centre: &Arc<Centre>,
        script: &[u8],
        out: &mut Vec<u8>,
    ) -> Result<Result<Client, ScriptFault>, AllocError>
        ensures found { IfOk result (λ read. MatchResult read
            (λ client. IsCalling (arc_value centre.now) script.now out.old.items out.new.items
            client.asking)
            (HasScriptFault (arc_value centre.now) script.now)) }
        ensures rows { IfOk result (λ read. IfOk read
            (λ client. client.asking.asker.agenda.rows ≡ arc_value centre.now)) }
        ensures fault { (fault : Fault) → HasScriptFault (arc_value centre.now) script.now fault
            → IfOk result (λ read. read ≡ Err fault) }
        ensures same { IfOk result (λ read. OnErr read (out.new.items ≡ out.old.items)) }
        ensures err { OnErr result (out.new.items ≡ out.old.items) }
        ensures memory { IsErr result → IsScriptText (arc_value centre.now) script.now }
    {
        let tables: &Centre = centre;
        match read_script(alloc, tables, script)? {
            Ok(script) => {
                let client = Client::calling(alloc, centre, script, out)?;
                Ok(Ok(client))
            }
            Err(fault) => Ok(Err(fault)),
        }
    }

    /// Calls, to play this script.
    fn calling(
        alloc: Global,
        centre: &Arc<Centre>,
        script: Script,
        out: &mut Vec<u8>,
    ) -> Result<Client, AllocError>
        requires { IsScript (arc_value centre.now) script }
        ensures rows { IfOk result (λ client.
            client.asking.asker.agenda.rows ≡ arc_value centre.now) }
        ensures stands { IfOk result (λ client.
            ClientStands (arc_value centre.now) script [] client.asking) }
        ensures out { OnOk result (out.new.items
            ≡ out.old.items ++ (client_of (arc_value centre.now) script []).said) }
        ensures err { OnErr result (out.new.items ≡ out.old.items) }
    {
        let tables: &Centre = centre;
        let title = table_title(tables, script.peer)?;
        let play = ScriptPlay::sharing(centre, script)?;
        let asking = AskingEnd::new(alloc, title, play, out)?;
        Ok(Client { asking })
    }

    /// Takes the next octets that its peer gave, at most 65,536. It appends to `out` what it says,
    /// and to `shown` the lines that it shows, and answers how it has ended, if it has. Behind its
    /// end octets are dropped. After want of memory `out` and `shown` are as before, and the client
    /// has ended.
    pub fn turn(
        &mut self,
        piece: &[u8],
        out: &mut Vec<u8>,
        shown: &mut Vec<u8>,
    ) -> Result<Option<AskEnd<Checkback>>, AllocError>
        requires { length piece.now ≤ PIECE_LIMIT }
        ensures rows { self.new.asking.asker.agenda.rows ≡ self.old.asking.asker.agenda.rows }
        ensures ok { (rows : AnyRows) (script : AnyScript) (octets : List ℕ)
            → ClientStands rows script octets self.old.asking
            → OnOk result (ClientTakes rows script octets piece.now
            out.old.items out.new.items shown.old.items shown.new.items self.new.asking) }
        ensures end { IfOk result (λ end. end ≡ self.new.asking.end) }
        // Once it has ended nothing changes.
        ensures over { (end : AnyEnd AnyCheckback) → self.old.asking.end ≡ Some end
            → result ≡ Ok (Some end) }
        ensures still { (end : AnyEnd AnyCheckback) → self.old.asking.end ≡ Some end
            → self.new ≡ self.old }
        ensures silent { (end : AnyEnd AnyCheckback) → self.old.asking.end ≡ Some end
            → out.new.items ≡ out.old.items }
        ensures unshown { (end : AnyEnd AnyCheckback) → self.old.asking.end ≡ Some end
            → shown.new.items ≡ shown.old.items }
        ensures err { OnErr result (self.new.asking.end ≡ Some ends.Memory) }
        ensures same { OnErr result (out.new.items ≡ out.old.items) }
        ensures hidden { OnErr result (shown.new.items ≡ shown.old.items) }
    {
        self.asking.turn(piece, out, shown)
    }

    /// How the client ends where its link gives no more: as it has ended already, or by its peer.
    pub fn peer_end(&self) -> AskEnd<Checkback>
        ensures { result ≡ unwrap_or self.now.asking.end ends.PeerEnd }
    {
        self.asking.peer_end()
    }

    /// The number of the script's line that is being done, once the association stands and before
    /// its conclude.
    pub fn line(&self) -> Option<u64>
        ensures { result ≡ line_done self.now.asking }
    {
        match self.asking.awaiting() {
            Awaiting::Association => None,
            _ => self.asking.agenda().line(),
        }
    }
}

/// The title of the peer's table.
pub(crate) fn table_title(centre: &Centre, peer: u32) -> Result<Option<Oid>, AllocError>
    requires { peer < length centre.now.tables }
    ensures { IfOk result (λ title. title ≡ (table_of centre.now peer).title) }
{
    match &centre.table(peer).title {
        Some(title) => Ok(Some(title.clone()?)),
        None => Ok(None),
    }
}
