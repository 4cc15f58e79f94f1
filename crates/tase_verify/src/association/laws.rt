//! What a verdict says.
ghost use Rattle.std.specs.Prelude.{◌≡◌, ◌↔◌, ℕ, List, Bool};
ghost use Rattle.std.specs.List.{All};
ghost use Rattle.bilateral.specs.Rows.{CentreRows};
ghost use Rattle.sbo_device.specs.declared.key.Key.{Key as AnyKey};
ghost use Rattle.tase_views.specs.History.{Past};
ghost use Rattle.tase_conn.specs.Map.Sent.{association_octets};
ghost use Rattle.texts.specs.Journal.Entries.{IsEvent};
ghost use Rattle.tase_verify.specs.declared.association.verdict.Verdict.TheVariants as verdicts;
ghost use Rattle.tase_verify.specs.Association.Accounts.{IsAccountedFor};
ghost use Rattle.tase_verify.specs.Association.Stray.{events_entered, events_asked};
ghost use Rattle.tase_verify.specs.Association.Verdicts.{verdict_of};

/// Octets are equal exactly where the events of their association, but for takes, are all that its
/// link asks, or a front part of this and then a close of the node's own, and the octets are those
/// that it is sent.
pub fn equal_is_exact()
    ensures { (rows : CentreRows) (past : Past) (key : AnyKey) (octets : List ℕ) (ended : Bool)
        (sent : List ℕ) → All IsEvent (events_entered key past)
        → All IsEvent (events_asked rows octets ended)
        → (verdict_of rows past key octets ended sent ≡ verdicts.Equal)
        ↔ (IsAccountedFor rows past key octets ended
        × (sent ≡ association_octets rows past key octets ended)) }
{}
