//! A node attends to a connection.
ghost use Rattle.std.specs.Prelude.{◌≡◌, ℕ, Bool, List, None, Some, reverse};
ghost use Rattle.std.specs.Prelude.{true, false};
ghost use Rattle.stack_assoc.specs.declared.end_state.EndState.{EndState};
ghost use Rattle.tase_conn.specs.declared.stage.ConnEnd.{ConnEnd as AnyEnd};
ghost use Rattle.tase_conn.specs.Talking.{Talking as AnyTalking, IsFree, is_running, is_leaving};
ghost use Rattle.tase_conn.specs.Places.{IsPlaced};
ghost use Rattle.tase_conn.specs.Wanting.{WantsSo};
ghost use Rattle.tase_conn.specs.Map.Inputs.{Item};
ghost use Rattle.conn_service.specs.Courses.Serving.{Serves};
ghost use Rattle.conn_service.specs.Courses.Cutting.{HasLeft};
ghost use Rattle.conn_service.specs.Attending.{IsServed, IsAsking, IsParting, Attends, SendsOn};
ghost use Rattle.conn_service.specs.Attending.{IsWanted, AnswersEvent, ClosesLeft, AsksClose};
ghost use Rattle.conn_service.specs.Attending.{IsAskingClose, GoesOrCloses};

use look_count::no_looks;
use node_core::Node;
use std::alloc::Global;
use tase_conn::{Conn, ConnEnd};
use tase_views::Event;

/// Has a node act on all that a connection's link gave: each event that the connection wants is
/// taken under this seat's number, and the connection is told the answer. Where the node refuses an
/// event, or memory is wanting, the connection is left, its association closed, and `conn.ended()`
/// tells why.
pub fn attend(alloc: Global, node: &mut Node, who: u64, conn: &mut Conn)
    requires served { IsServed node.old.setup.centre (reverse node.old.history) who conn.old }
    ensures attended { (items : List Item) (said : List ℕ)
        → Serves node.old.setup.centre (reverse node.old.history) who items said None conn.old
        → Attends node.old.setup (reverse node.old.history) who items said conn.old
        (reverse node.new.history) conn.new }
    ensures sends { (items : List Item) (said : List ℕ)
        → Serves node.old.setup.centre (reverse node.old.history) who items said None conn.old
        → SendsOn node.old.setup who items said conn.old (reverse node.new.history) conn.new }
    ensures setup { node.new.setup ≡ node.old.setup }
{
    attend_all(alloc, node, who, conn);
}

fn attend_all(alloc: Global, node: &mut Node, who: u64, conn: &mut Conn)
    requires served { IsServed node.old.setup.centre (reverse node.old.history) who conn.old }
    ensures attended { (items : List Item) (said : List ℕ)
        → Serves node.old.setup.centre (reverse node.old.history) who items said None conn.old
        → Attends node.old.setup (reverse node.old.history) who items said conn.old
        (reverse node.new.history) conn.new }
    ensures setup { node.new.setup ≡ node.old.setup }
{
    while let Some(event) = wanted(alloc, node, who, conn) {
        if !answer(alloc, node, who, conn, event) {
            return;
        }
    }
}

/// The next event that a connection wants, if it wants one. Where memory is wanting it is given up.
fn wanted(alloc: Global, node: &mut Node, who: u64, conn: &mut Conn) -> Option<Event>
    requires served { IsServed node.old.setup.centre (reverse node.old.history) who conn.old }
    ensures wants { (items : List Item) (said : List ℕ)
        → Serves node.old.setup.centre (reverse node.old.history) who items said None conn.old
        → IsWanted node.old.setup (reverse node.old.history) who items said conn.old result
        (reverse node.new.history) conn.new }
    ensures setup { node.new.setup ≡ node.old.setup }
{
    match conn.want() {
        Ok(event) => event,
        Err(_) => {
            conn.give_up(ConnEnd::Memory);
            close(alloc, node, who, conn);
            None
        }
    }
}

/// Takes an event that a connection wants, and tells it the answer. Whether the connection goes on:
/// not where the event was refused, a report is too long, or memory was wanting for what is said.
fn answer(alloc: Global, node: &mut Node, who: u64, conn: &mut Conn, event: Event) -> bool
    requires waits { IsAsking node.old.setup.centre (reverse node.old.history) who event conn.old }
    ensures answers { (items : List Item) (said : List ℕ)
        → Serves node.old.setup.centre (reverse node.old.history) who items said (Some event)
        conn.old
        → AnswersEvent node.old.setup (reverse node.old.history) who items said event conn.old
        result (reverse node.new.history) conn.new }
    ensures setup { node.new.setup ≡ node.old.setup }
{
    let mut looks = no_looks();
    match node.step(alloc, who, event, &mut looks) {
        Ok(answer) => match conn.tell(Ok(answer)) {
            Ok(()) => goes_on(alloc, node, who, conn),
            Err(_) => {
                conn.give_up(ConnEnd::Memory);
                close(alloc, node, who, conn);
                false
            }
        },
        Err(fault) => {
            // A refusal leaves the connection, and takes no memory.
            let _told = conn.tell(Err(fault));
            close(alloc, node, who, conn);
            false
        }
    }
}

/// Whether a connection goes on that was told an answer. Where it was left by that its association
/// is closed.
fn goes_on(alloc: Global, node: &mut Node, who: u64, conn: &mut Conn) -> bool
    requires left { is_leaving conn.old.progress ≡ true
        → IsParting node.old.setup.centre (reverse node.old.history) who conn.old }
    ensures goes { GoesOrCloses result node.old.setup.centre (reverse node.old.history) who
        conn.old (reverse node.new.history) conn.new }
    ensures setup { node.new.setup ≡ node.old.setup }
{
    if !conn.is_leaving() {
        return true;
    }
    close(alloc, node, who, conn);
    false
}

/// Closes the association of a connection that was left, where one is open. No memory is taken.
fn close(alloc: Global, node: &mut Node, who: u64, conn: &mut Conn)
    requires left { IsParting node.old.setup.centre (reverse node.old.history) who conn.old }
    ensures closes { (whole : Bool) (end : AnyEnd) (standing : EndState) (items : List Item)
        (said : List ℕ)
        → HasLeft whole end standing node.old.setup.centre (reverse node.old.history) who items said
        None conn.old
        → ClosesLeft whole end standing node.old.setup.centre (reverse node.old.history) who items
        said conn.old (reverse node.new.history) conn.new }
    ensures setup { node.new.setup ≡ node.old.setup }
{
    match wanted_close(conn) {
        Some(event) => take_close(alloc, node, who, conn, event),
        None => {}
    }
}

/// The close that a connection wants that was left, if its association is open.
fn wanted_close(conn: &mut Conn) -> Option<Event>
    requires over { is_running conn.old.progress ≡ false }
    requires free { IsFree conn.old.progress }
    requires placed { IsPlaced conn.old }
    ensures { WantsSo result conn.old conn.new }
{
    match conn.want() {
        Ok(event) => event,
        // No memory is taken, so this doesn't come.
        Err(_) => None,
    }
}

/// Takes the close of a connection that was left, and tells it so.
fn take_close(alloc: Global, node: &mut Node, who: u64, conn: &mut Conn, event: Event)
    requires asks { IsAskingClose node.old.setup.centre (reverse node.old.history) who event
        conn.old }
    ensures closes { (whole : Bool) (end : AnyEnd) (standing : EndState) (items : List Item)
        (said : List ℕ) (first : AnyTalking)
        → AsksClose whole end standing node.old.setup.centre (reverse node.old.history) who items
        said event first conn.old
        → ClosesLeft whole end standing node.old.setup.centre (reverse node.old.history) who items
        said first (reverse node.new.history) conn.new }
    ensures setup { node.new.setup ≡ node.old.setup }
{
    let mut looks = no_looks();
    match node.step(alloc, who, event, &mut looks) {
        Ok(answer) => {
            // It takes no memory.
            let _told = conn.tell(Ok(answer));
        }
        // A close is never refused.
        Err(_) => {}
    }
}
