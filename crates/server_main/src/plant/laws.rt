//! What holds of the orders of every history.
ghost use Rattle.std.specs.Prelude.{◌≡◌, ◌++◌, ℕ};
ghost use Rattle.bilateral.specs.Rows.{CentreRows};
ghost use Rattle.tase_views.specs.OwnTables.{own_tables};
ghost use Rattle.tase_views.specs.View.{moves_in};
ghost use Rattle.tase_views.specs.Orders.{orders_of, orders_left};
ghost use Rattle.share_turn.specs.Entries.{Keeps};
ghost use Rattle.node_server.specs.Turn.Logged.{past_in};
ghost use Rattle.node_server.specs.NodeCalls.{NodeLog};
ghost use Rattle.texts.specs.Orders.PlantLines.{plant_text};
ghost use Rattle.server_main.specs.Plant.PlantHistory.{orders_given, TakesAlone};

/// Where one seat alone takes orders, and what it has seen keeps all its entries, the orders that
/// it was given and those that are left are all orders of the history, in order: so none is lost,
/// and none is told twice. The lines of both are the lines of all.
pub fn orders_are_told_once()
    ensures orders { (rows : CentreRows) (who : ℕ) (front log : NodeLog)
        → Keeps log (who, front) → TakesAlone who log
        → orders_given rows who (past_in front)
        ++ orders_left rows (own_tables rows) (moves_in (past_in log))
        ≡ orders_of rows (own_tables rows) (moves_in (past_in log)) }
    ensures lines { (rows : CentreRows) (who : ℕ) (front log : NodeLog)
        → Keeps log (who, front) → TakesAlone who log
        → plant_text rows (orders_given rows who (past_in front))
        ++ plant_text rows (orders_left rows (own_tables rows) (moves_in (past_in log)))
        ≡ plant_text rows (orders_of rows (own_tables rows) (moves_in (past_in log))) }
{}
