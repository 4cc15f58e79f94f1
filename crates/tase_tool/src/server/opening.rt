//! What a server works on, opened one after another.
ghost use Rattle.std.specs.Prelude.{option_map};
ghost use Rattle.tase_tool.specs.Server.Opening.{OpensTimed, OpensFed, OpensAll};

use commands::io::OUTPUT;
use outside::names::Outside;

/// The name of standard input among the outside's sources.
const INPUT: &str = "-";

/// Opens the clock and the plant; where one isn't handed out, none is left open.
fn open_timed<O: Outside>(outside: &mut O) -> Option<(O::Clock, O::Out)>
    ensures { OpensTimed (O.told outside.old) (O.told outside.new)
        (option_map (λ both. (O.Clock.told both.0, O.Out.told both.1)) result) }
{
    let clock = outside.clock()?;
    match outside.open_out(OUTPUT) {
        Some(plant) => Some((clock, plant)),
        None => {
            outside.close_clock(clock);
            None
        }
    }
}

/// Opens the feed, and what is timed; where one isn't handed out, none is left open.
fn open_fed<O: Outside>(outside: &mut O) -> Option<(O::In, (O::Clock, O::Out))>
    ensures { OpensFed (O.told outside.old) (O.told outside.new)
        (option_map (λ both. (O.In.told both.0, (O.Clock.told both.1.0, O.Out.told both.1.1)))
        result) }
{
    let feed = outside.open_in(INPUT)?;
    match open_timed(outside) {
        Some(timed) => Some((feed, timed)),
        None => {
            outside.close_in(feed);
            None
        }
    }
}

/// What a server works on.
pub(crate) struct Opened<N, S, C, K> {
    pub(crate) listener: N,
    pub(crate) feed: S,
    pub(crate) clock: C,
    pub(crate) plant: K,
}

/// Opens a listener at this address, the feed, the clock and the plant, in this order; where one
/// isn't handed out, none is left open.
pub(crate) fn open_all<O: Outside>(
    outside: &mut O,
    address: &str,
) -> Option<Opened<O::Listener, O::In, O::Clock, O::Out>>
    ensures { OpensAll address.now (O.told outside.old) (O.told outside.new)
        (option_map (λ opened. (
          O.Listener.told opened.listener,
          (
            O.In.told opened.feed,
            (O.Clock.told opened.clock, O.Out.told opened.plant),
          ),
        )) result) }
{
    let listener = outside.listen(address)?;
    match open_fed(outside) {
        Some((feed, (clock, plant))) => Some(Opened {
            listener,
            feed,
            clock,
            plant,
        }),
        None => {
            outside.close_listener(listener);
            None
        }
    }
}
