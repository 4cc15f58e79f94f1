//! A client that is about to talk over a link.
ghost use Rattle.std.specs.Prelude.{◌≡◌, Err, IfOk, IsErr, MatchResult};
ghost use Rattle.std.specs.Arc.{arc_value};
ghost use Rattle.asking_end.specs.Service.Talks.{IsTalk};
ghost use Rattle.centre_client.specs.declared.fault.ScriptFault.{ScriptFault as Fault};
ghost use Rattle.centre_client.specs.Scripts.{HasScriptFault, IsScript, IsScriptText};
ghost use Rattle.centre_client.specs.Runs.{IsClientTalk};
ghost use Rattle.centre_client.specs.Scripted.{script_acts, scripted, title_of};

use crate::client::table_title;
use crate::script::{Script, read_script};
use crate::{ScriptFault, ScriptPlay};
use asking_end::service::Talk;
use bilateral::Centre;
use std::alloc::{AllocError, Global};
use std::sync::Arc;

/// A client of a centre's tables that is to play the script with this text, before its link is
/// there. Where the text is no script, its first bad line, which is told whether memory is left
/// or not.
pub fn client_talk(
    alloc: Global,
    centre: &Arc<Centre>,
    script: &[u8],
) -> Result<Result<Talk<ScriptPlay>, ScriptFault>, AllocError>
    ensures found { IfOk result (λ read. MatchResult read
        (IsClientTalk (arc_value centre.now) script.now)
        (HasScriptFault (arc_value centre.now) script.now)) }
    ensures fault { (fault : Fault) → HasScriptFault (arc_value centre.now) script.now fault
        → IfOk result (λ read. read ≡ Err fault) }
    ensures memory { IsErr result → IsScriptText (arc_value centre.now) script.now }
{
    let tables: &Centre = centre;
    match read_script(alloc, tables, script)? {
        Ok(script) => {
            let talk = script_talk(alloc, centre, script)?;
            Ok(Ok(talk))
        }
        Err(fault) => Ok(Err(fault)),
    }
}

/// A client that is to play this script.
fn script_talk(
    alloc: Global,
    centre: &Arc<Centre>,
    script: Script,
) -> Result<Talk<ScriptPlay>, AllocError>
    requires { IsScript (arc_value centre.now) script }
    ensures { IfOk result (IsTalk script_acts (title_of (arc_value centre.now) script)
        (scripted (arc_value centre.now) script)) }
{
    let tables: &Centre = centre;
    let title = table_title(tables, script.peer)?;
    let play = ScriptPlay::sharing(centre, script)?;
    let talk = Talk::new(alloc, title, play)?;
    Ok(talk)
}
