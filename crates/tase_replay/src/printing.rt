ghost use Rattle.std.specs.Prelude.{◌≡◌, [], ◌∷◌, ◌++◌, length, drop, OnOk, Some, codes};
ghost use Rattle.std.specs.Prelude.{decimal, flat_map};
ghost use Rattle.plain_text.specs.Octets.{hex_text};
ghost use Rattle.conn_service.specs.TaseConn.Talking.{pending_of, next_pending, conn_end_in};
ghost use Rattle.conn_service.specs.TaseConn.Places.{KeepsPlace};
ghost use Rattle.conn_service.specs.TaseConn.Taken.{SendsSome};
ghost use Rattle.tase_replay.specs.declared.playing.ReplayEnd.TheVariants.{Done};
ghost use Rattle.tase_replay.specs.Links.{line_of_out, line_of_end, end_text, fault_text};
ghost use Rattle.bilateral.specs.Rows.{device_of};
ghost use Rattle.tase_replay.specs.Play.{line_of_reply, line_of_report, line_of_order};
ghost use Rattle.tase_replay.specs.Ends.{IsShown, end_of_write};

use crate::playing::ReplayEnd;
use bilateral::Centre;
use conn_service::connection::{Conn, ConnEnd};
use outside::{Sink, SinkFailed, write_all};
use plain_text::{push_decimal, push_escaped, push_hex, push_signed_decimal};
use sbo_device::Order;
use stack_assoc::listing::{layer_name, why_name};
use stack_assoc::messages::StackFault;
use std::alloc::AllocError;
use tase_views::{Reply, Report};
use texts::events::spell_reply;
use texts::reports::spell_report;

/// Prints a reply to a seat as a line. `text` is where the line is put together; what it held is
/// gone.
pub(crate) fn print_reply<K: Sink>(
    who: u64,
    reply: &Reply,
    sink: &mut K,
    text: &mut Vec<u8>,
) -> ReplayEnd
    ensures { IsShown (line_of_reply who reply.now) (K.told sink.old) (K.told sink.new) result }
{
    if spell_line(text, who, reply).is_err() {
        return ReplayEnd::Memory;
    }
    print_text(sink, text.as_slice())
}

fn print_text<K: Sink>(sink: &mut K, text: &[u8]) -> ReplayEnd
    ensures { IsShown text.now (K.told sink.old) (K.told sink.new) result }
{
    let end = write_all(sink, text);
    written(end)
}

/// How a line ends whose text was written so.
fn written(end: Result<(), SinkFailed>) -> ReplayEnd
    ensures { result ≡ end_of_write end }
{
    match end {
        Ok(()) => ReplayEnd::Done,
        Err(_) => ReplayEnd::SinkFault,
    }
}

/// Puts the line of a reply into `text`, in place of what that held.
fn spell_line(text: &mut Vec<u8>, who: u64, reply: &Reply) -> Result<(), AllocError>
    ensures { OnOk result (text.new.items ≡ line_of_reply who reply.now) }
{
    text.clear();
    text.extend_from_slice(b"reply ")?;
    push_decimal(text, who)?;
    text.push(b' ')?;
    spell_reply(text, reply)?;
    text.push(b'\n')?;
    Ok(())
}

/// Prints the reports that a seat takes, a line each. `text` is where the lines are put together;
/// what it held is gone.
pub(crate) fn print_reports<K: Sink>(
    who: u64,
    reports: &[Report],
    sink: &mut K,
    text: &mut Vec<u8>,
) -> ReplayEnd
    ensures { IsShown (flat_map (line_of_report who) reports.now)
        (K.told sink.old) (K.told sink.new) result }
{
    if spell_lines(text, who, reports).is_err() {
        return ReplayEnd::Memory;
    }
    print_text(sink, text.as_slice())
}

/// Puts the lines of reports into `text`, in place of what that held.
fn spell_lines(text: &mut Vec<u8>, who: u64, reports: &[Report]) -> Result<(), AllocError>
    ensures { OnOk result (text.new.items ≡ flat_map (line_of_report who) reports.now) }
{
    text.clear();
    for report in reports {
        put_report(text, who, report)?;
    }
    Ok(())
}

/// Appends the line of a report.
fn put_report(text: &mut Vec<u8>, who: u64, report: &Report) -> Result<(), AllocError>
    ensures { OnOk result (text.new.items ≡ text.old.items ++ line_of_report who report.now) }
{
    text.extend_from_slice(b"report ")?;
    push_decimal(text, who)?;
    text.push(b' ')?;
    spell_report(text, report)?;
    text.push(b'\n')?;
    Ok(())
}

/// Prints the orders that the plant takes, a line each. `text` is where the lines are put together;
/// what it held is gone.
pub(crate) fn print_orders<K: Sink>(
    centre: &Centre,
    orders: &[Order],
    sink: &mut K,
    text: &mut Vec<u8>,
) -> ReplayEnd
    ensures { IsShown (flat_map (line_of_order centre.now) orders.now)
        (K.told sink.old) (K.told sink.new) result }
{
    if spell_orders(text, centre, orders).is_err() {
        return ReplayEnd::Memory;
    }
    print_text(sink, text.as_slice())
}

/// Puts the lines of orders into `text`, in place of what that held.
fn spell_orders(text: &mut Vec<u8>, centre: &Centre, orders: &[Order]) -> Result<(), AllocError>
    ensures { OnOk result (text.new.items ≡ flat_map (line_of_order centre.now) orders.now) }
{
    text.clear();
    for order in orders {
        put_order(text, centre, *order)?;
    }
    Ok(())
}

/// Appends the line of an order.
fn put_order(text: &mut Vec<u8>, centre: &Centre, order: Order) -> Result<(), AllocError>
    ensures { OnOk result (text.new.items ≡ text.old.items ++ line_of_order centre.now order) }
{
    text.extend_from_slice(b"order ")?;
    push_escaped(text, device_name(centre, order.device))?;
    text.push(b' ')?;
    push_signed_decimal(text, order.value)?;
    text.push(b'\n')?;
    Ok(())
}

/// The name of the device with this number; where there is none, no octet.
fn device_name(centre: &Centre, device: u32) -> &[u8]
    ensures { result.now ≡ (device_of centre.now device).name }
{
    if device < centre.devices() {
        centre.device(device).name.as_slice()
    } else {
        &[]
    }
}

/// Prints what a connection has to send, as one line, and how it ended, if it has. All of it is
/// sent then.
pub(crate) fn print_sent<K: Sink>(
    who: u64,
    conn: &mut Conn,
    sink: &mut K,
    text: &mut Vec<u8>,
) -> ReplayEnd
    ensures shown { IsShown (line_of_out who (pending_of conn.old)
        ++ line_of_end who (conn_end_in conn.old.progress))
        (K.told sink.old) (K.told sink.new) result }
    ensures sent { result ≡ Done → pending_of conn.new ≡ [] }
    ensures stands { KeepsPlace conn.old conn.new }
    ensures same { SendsSome conn.old conn.new }
{
    if spell_sent(text, who, conn).is_err() {
        return ReplayEnd::Memory;
    }
    print_text(sink, text.as_slice())
}

/// Puts these lines into `text`, in place of what that held.
fn spell_sent(text: &mut Vec<u8>, who: u64, conn: &mut Conn) -> Result<(), AllocError>
    ensures lines { OnOk result (text.new.items ≡ line_of_out who (pending_of conn.old)
        ++ line_of_end who (conn_end_in conn.old.progress)) }
    ensures sent { OnOk result (pending_of conn.new ≡ []) }
    ensures stands { KeepsPlace conn.old conn.new }
    ensures same { SendsSome conn.old conn.new }
{
    text.clear();
    put_any_out(text, who, conn)?;
    put_any_end(text, who, conn)?;
    Ok(())
}

/// Appends the line of all octets that are to be sent, if any are.
fn put_any_out(text: &mut Vec<u8>, who: u64, conn: &mut Conn) -> Result<(), AllocError>
    ensures line { OnOk result (text.new.items
        ≡ text.old.items ++ line_of_out who (pending_of conn.old)) }
    ensures sent { OnOk result (pending_of conn.new ≡ []) }
    ensures stands { KeepsPlace conn.old conn.new }
    ensures same { SendsSome conn.old conn.new }
{
    if conn.pending().is_empty() {
        return Ok(());
    }
    put_out(text, who, conn)?;
    Ok(())
}

/// Appends the line of a connection's end, if it has ended.
fn put_any_end(text: &mut Vec<u8>, who: u64, conn: &Conn) -> Result<(), AllocError>
    ensures { OnOk result (text.new.items
        ≡ text.old.items ++ line_of_end who (conn_end_in conn.now.progress)) }
{
    match conn.ended() {
        Some(end) => put_ended(text, who, *end),
        None => Ok(()),
    }
}

/// Appends the line of all octets that are to be sent.
fn put_out(text: &mut Vec<u8>, who: u64, conn: &mut Conn) -> Result<(), AllocError>
    ensures line { OnOk result (text.new.items ≡ text.old.items ++ codes "out " ++ decimal who
        ++ 32 ∷ hex_text (pending_of conn.old) ++ 10 ∷ []) }
    ensures sent { OnOk result (pending_of conn.new ≡ []) }
    ensures stands { KeepsPlace conn.old conn.new }
    ensures same { SendsSome conn.old conn.new }
{
    text.extend_from_slice(b"out ")?;
    push_decimal(text, who)?;
    text.push(b' ')?;
    put_all(text, conn)?;
    text.push(b'\n')?;
    Ok(())
}

/// Appends all octets that are to be sent, which count as sent then: behind all others come those
/// of an abort.
fn put_all(text: &mut Vec<u8>, conn: &mut Conn) -> Result<(), AllocError>
    ensures digits { OnOk result (text.new.items
        ≡ text.old.items ++ hex_text (pending_of conn.old)) }
    ensures sent { OnOk result (pending_of conn.new ≡ []) }
    ensures stands { KeepsPlace conn.old conn.new }
    ensures same { SendsSome conn.old conn.new }
{
    while !conn.pending().is_empty() {
        put_pending(text, conn)?;
    }
    Ok(())
}

/// Appends the octets that are to be sent next; they count as sent then.
fn put_pending(text: &mut Vec<u8>, conn: &mut Conn) -> Result<(), AllocError>
    ensures digits { OnOk result (text.new.items
        ≡ text.old.items ++ hex_text (next_pending conn.old)) }
    ensures sent { OnOk result (pending_of conn.new
        ≡ drop (length (next_pending conn.old)) (pending_of conn.old)) }
    ensures stands { KeepsPlace conn.old conn.new }
    ensures same { SendsSome conn.old conn.new }
{
    let octets = conn.pending();
    let count = octets.len();
    push_hex(text, octets)?;
    conn.sent(count);
    Ok(())
}

/// Appends the line of an end.
fn put_ended(text: &mut Vec<u8>, who: u64, end: ConnEnd) -> Result<(), AllocError>
    ensures { OnOk result (text.new.items ≡ text.old.items ++ line_of_end who (Some end)) }
{
    text.extend_from_slice(b"ended ")?;
    push_decimal(text, who)?;
    text.push(b' ')?;
    put_end(text, end)?;
    text.push(b'\n')?;
    Ok(())
}

/// Appends the text of an end. Those of which no scenario shows one have none.
fn put_end(text: &mut Vec<u8>, end: ConnEnd) -> Result<(), AllocError>
    ensures { OnOk result (text.new.items ≡ text.old.items ++ end_text end) }
{
    match end {
        ConnEnd::Finished => text.extend_from_slice(b"finished"),
        ConnEnd::PeerEnd => text.extend_from_slice(b"peerend"),
        ConnEnd::Declined => text.extend_from_slice(b"declined"),
        ConnEnd::Refused(fault) => put_refused(text, fault),
        ConnEnd::TooLong { len, detail } => put_too_long(text, len, detail),
        ConnEnd::Stopped => text.extend_from_slice(b"stopped"),
        ConnEnd::Overflow { .. } | ConnEnd::LinkFault | ConnEnd::Full { .. } | ConnEnd::Memory =>
            Ok(()),
    }
}

fn put_refused(text: &mut Vec<u8>, fault: StackFault) -> Result<(), AllocError>
    ensures { OnOk result (text.new.items
        ≡ text.old.items ++ codes "refused " ++ fault_text fault) }
{
    text.extend_from_slice(b"refused ")?;
    text.extend_from_slice(layer_name(fault.layer).as_bytes())?;
    text.push(b' ')?;
    push_decimal(text, fault.place)?;
    text.push(b' ')?;
    text.extend_from_slice(why_name(fault.why).as_bytes())?;
    Ok(())
}

fn put_too_long(text: &mut Vec<u8>, len: u64, detail: u64) -> Result<(), AllocError>
    ensures { OnOk result (text.new.items
        ≡ text.old.items ++ codes "toolong " ++ decimal len ++ 32 ∷ decimal detail) }
{
    text.extend_from_slice(b"toolong ")?;
    push_decimal(text, len)?;
    text.push(b' ')?;
    push_decimal(text, detail)?;
    Ok(())
}
