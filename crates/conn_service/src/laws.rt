//! Isolation of peers: what the peer of a link is sent hangs on nothing that other peers are shown;
//! and what an ended connection leaves.
ghost use Rattle.std.specs.Prelude.{◌≡◌, ℕ, List, Option, Some, None};
ghost use Rattle.bilateral.specs.Rows.{CentreRows};
ghost use Rattle.sbo_device.specs.declared.key.Key.{Key};
ghost use Rattle.tase_views.specs.Setup.{Setup};
ghost use Rattle.tase_views.specs.History.{Past, association_in};
ghost use Rattle.tase_views.specs.OwnTables.{own_tables};
ghost use Rattle.tase_views.specs.View.{view_of};
ghost use Rattle.tase_conn.specs.Map.Inputs.{Item, IsLinkInput};
ghost use Rattle.tase_conn.specs.Map.Asks.{is_peers};
ghost use Rattle.tase_conn.specs.Map.Linked.{opened_in, link_octets};
ghost use Rattle.tase_conn.specs.declared.stage.ConnEnd.{ConnEnd};
ghost use Rattle.conn_service.specs.Sends.{Sends};

/// Two worlds. Two centres with two histories, two links that give the same at any two seats: where
/// the associations that these have opened last are of peers with the same own tables and the same
/// view, and have the same ordinal, the links' peers are sent the same octets; and where neither
/// has opened one, and the same titles are peers'.
pub fn two_worlds_are_sent_alike()
    ensures association { (here there : CentreRows) (past other_past : Past) (who seat : ℕ)
        (items : List Item) (key other : Key)
        → opened_in past who ≡ Some key → opened_in other_past seat ≡ Some other
        → own_tables here key.peer ≡ own_tables there other.peer
        → view_of here key.peer past ≡ view_of there other.peer other_past
        → key.ordinal ≡ other.ordinal
        → link_octets here past who items ≡ link_octets there other_past seat items }
    ensures early { (here there : CentreRows) (past other_past : Past) (who seat : ℕ)
        (items : List Item)
        → opened_in past who ≡ None → opened_in other_past seat ≡ None
        → ((title : Option (List ℕ)) → is_peers here title ≡ is_peers there title)
        → link_octets here past who items ≡ link_octets there other_past seat items }
{}

/// A connection that has ended, however it did, leaves no association of its seat open.
pub fn ended_connections_are_closed()
    ensures { (setup : Setup) (past : Past) (who : ℕ) (items : List Item) (end : ConnEnd)
        (octets : List ℕ) → IsLinkInput items → Sends setup past who items (Some end) octets
        → association_in past who ≡ None }
{}
