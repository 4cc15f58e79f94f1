//! The lines of a listing. Each is appended whole: after want of memory `out` is as before.
ghost use Rattle.std.specs.Prelude.{◌≡◌, ◌++◌, [], ◌∷◌, codes, decimal, IfOk, OnOk, OnErr};
ghost use Rattle.std.specs.Prelude.{string_bytes};
ghost use Rattle.stack_assoc.specs.Listing.Lines as spec;

use crate::listing::names::{MessageName, layer_name, why_name};
use crate::messages::StackFault;
use std::alloc::{AllocError, Global};

fn message_line(alloc: Global, place: u64, name: &str, size: u64) -> Result<String, AllocError>
    ensures { IfOk result (λ line. string_bytes line ≡ codes "at " ++ decimal place
        ++ 32 ∷ [] ++ name.now ++ 32 ∷ [] ++ decimal size ++ 10 ∷ []) }
{
    format!(in alloc; "at {place} {name} {size}\n")
}

fn left_line(alloc: Global, count: u64) -> Result<String, AllocError>
    ensures { IfOk result (λ line. string_bytes line
        ≡ codes "rest " ++ decimal count ++ 10 ∷ []) }
{
    format!(in alloc; "rest {count}\n")
}

fn broken_line(alloc: Global, layer: &str, place: u64, why: &str) -> Result<String, AllocError>
    ensures { IfOk result (λ line. string_bytes line ≡ codes "fault " ++ layer.now ++ 32 ∷ []
        ++ decimal place ++ 32 ∷ [] ++ why.now ++ 10 ∷ []) }
{
    format!(in alloc; "fault {layer} {place} {why}\n")
}

/// Appends the line of a message: the place of its first octet, its name, and how many octets it
/// has.
pub(crate) fn put_message(
    out: &mut Vec<u8>,
    place: u64,
    name: MessageName,
    size: u64,
) -> Result<(), AllocError>
    ensures ok { OnOk result (out.new.items ≡ out.old.items ++ spec.at_line place name size) }
    ensures err { OnErr result (out.new.items ≡ out.old.items) }
{
    let line = message_line(*out.allocator(), place, name.as_str(), size)?;
    out.extend_from_slice(line.as_bytes())
}

/// Appends the line of octets that are left over, if there are any.
pub(crate) fn put_rest(out: &mut Vec<u8>, count: u64) -> Result<(), AllocError>
    ensures ok { OnOk result (out.new.items ≡ out.old.items ++ spec.rest_line count) }
    ensures err { OnErr result (out.new.items ≡ out.old.items) }
{
    if count == 0 {
        return Ok(());
    }
    let line = left_line(*out.allocator(), count)?;
    out.extend_from_slice(line.as_bytes())
}

/// Appends the line of a fault.
pub(crate) fn put_fault(out: &mut Vec<u8>, fault: StackFault) -> Result<(), AllocError>
    ensures ok { OnOk result (out.new.items ≡ out.old.items ++ spec.fault_line fault) }
    ensures err { OnErr result (out.new.items ≡ out.old.items) }
{
    let layer = layer_name(fault.layer);
    let line = broken_line(*out.allocator(), layer, fault.place, why_name(fault.why))?;
    out.extend_from_slice(line.as_bytes())
}
