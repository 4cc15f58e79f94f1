//! What an asking end works on, opened one after another.
ghost use Rattle.std.specs.Prelude.{option_map};
ghost use Rattle.tase_tool.specs.Asking.Opening.{OpensBoth, LeavesLink};

use commands::io::OUTPUT;
use outside::links::Link;
use outside::names::Outside;

/// Connects to the node at an address, and opens standard output; where that isn't handed out, the
/// link is closed again.
pub(crate) fn open_both<O: Outside>(outside: &mut O, address: &str) -> Option<(O::Link, O::Out)>
    ensures { OpensBoth address.now (O.told outside.old) (O.told outside.new)
        (option_map (λ both. (O.Link.told both.0, O.Out.told both.1)) result) }
{
    let Some(link) = outside.connect(address) else {
        return None;
    };
    match outside.open_out(OUTPUT) {
        Some(sink) => Some((link, sink)),
        None => {
            close_link(outside, link);
            None
        }
    }
}

/// Closes a link, and puts it back.
pub(crate) fn close_link<O: Outside>(outside: &mut O, link: O::Link)
    ensures { LeavesLink (O.told outside.old) (O.told outside.new) (O.Link.told link) }
{
    let mut link = link;
    link.close();
    outside.close_link(link);
}
