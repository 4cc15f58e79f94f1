//! The call of a script's line, judged without memory.
ghost use Rattle.std.specs.Prelude.{◌≡◌, ◌<◌, length};
ghost use Rattle.plain_text.specs.Words.{words};
ghost use Rattle.texts.specs.Journal.CallIn.{call_in};
ghost use Rattle.centre_client.specs.StepLines.{call_step};
ghost use Rattle.centre_client.specs.LineFaults.{error_told};
ghost use Rattle.centre_client.specs.SketchFaults as own;

mod data;
mod items;
mod names;
mod scopes;
mod verbs;
mod visible;
mod word_sizes;
mod writes;

use crate::fault::ScriptWhy;
use asking_end::REQUEST_LIMIT;
use ber_values::add_len;
use bilateral::Centre;
use verbs::{CallSketch, read_sketch};
use word_sizes::element_len;

/// The reason against the call that words are, told without memory.
pub(crate) fn call_fault(centre: &Centre, peer: u32, text: &[u8]) -> Option<ScriptWhy>
    requires { peer < length centre.now.tables }
    ensures { result ≡ error_told (call_step centre.now peer (call_in (words text.now))) }
{
    sketch_fault(read_sketch(centre, peer, text))
}

/// The reason against a call of which this is judged; nothing is judged of words that are none.
fn sketch_fault(sketch: Option<CallSketch>) -> Option<ScriptWhy>
    ensures { result ≡ own.sketch_why sketch }
{
    match sketch {
        Some(sketch) => call_why(sketch),
        None => Some(ScriptWhy::Word),
    }
}

fn call_why(sketch: CallSketch) -> Option<ScriptWhy>
    ensures { result ≡ own.why_of_sketch sketch }
{
    if sketch.odd {
        Some(ScriptWhy::Word)
    } else if sketch.guarded {
        Some(ScriptWhy::Selectable)
    } else if is_long(sketch.size) {
        Some(ScriptWhy::Long)
    } else {
        None
    }
}

/// Whether a request whose contents have so many octets is longer than what the client offers, by
/// the highest number.
fn is_long(contents: usize) -> bool
    ensures { result ≡ own.is_size_long contents }
{
    element_len(add_len(6, element_len(contents))) > REQUEST_LIMIT
}
