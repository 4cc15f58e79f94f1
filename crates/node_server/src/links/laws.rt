//! What a link that was served leaves in the history.
ghost use Rattle.std.specs.Prelude.{◌≡◌, ℕ, None, []};
ghost use Rattle.outside.specs.Links.Links.{LinkTold};
ghost use Rattle.tase_views.specs.History.{association_in};
ghost use Rattle.tase_conn.specs.declared.stage.ConnEnd.{ConnEnd};
ghost use Rattle.node_server.specs.declared.turn.turn_node.NodeSetup.{NodeSetup};
ghost use Rattle.node_server.specs.Turn.Logged.{past_in};
ghost use Rattle.share_turn.specs.Entries.{own};
ghost use Rattle.node_server.specs.NodeCalls.{NodeLog, NodeSeat};
ghost use Rattle.node_server.specs.Links.ServedLinks.{ServesLink, ServesNextLink, ServesUpTo};

/// A link that was served, to whatever end, leaves no association of its seat open; so it is too
/// where the seat has served others before.
pub fn served_links_are_closed()
    ensures served { (setup : NodeSetup) (who : ℕ) (log : NodeLog) (link used : LinkTold)
        (end : ConnEnd)
        → ServesUpTo setup who log link used end → association_in (past_in log) who ≡ None }
    ensures again { (setup : NodeSetup) (seat : NodeSeat) (front : NodeLog)
        (link later : LinkTold) (end : ConnEnd)
        → association_in (past_in seat.front) seat.number ≡ None
        → (s : ServesNextLink setup seat front link later end)
        → association_in (past_in s.seen) seat.number ≡ None }
{}

/// A seat that had done nothing before has served its link over all that was seen, as it was.
pub fn fresh_seats_serve()
    ensures { (setup : NodeSetup) (seat : NodeSeat) (front : NodeLog) (link later : LinkTold)
        (end : ConnEnd)
        → own seat.number seat.front ≡ [] → ServesNextLink setup seat front link later end
        → ServesLink setup seat front link later end }
{}
