//! What holds of all listings.
ghost use Rattle.std.specs.Prelude.{ℕ, List, Option};
ghost use Rattle.bilateral.specs.Rows.{CentreRows, IsCentre, variant_of};
ghost use Rattle.tase_views.specs.declared.reply.ReplyKind.{ReplyKind};
ghost use Rattle.tase_views.specs.OwnTables.{OwnTables, own_table};
ghost use Rattle.asking_end.specs.Exchanges.{Admission};
ghost use Rattle.tase_discover.specs.SelfListings.{NamesDiffer, AreReplies, ListsItself};
ghost use Rattle.tase_discover.specs.HeardListings.{FinishesAlike};

use bilateral::names_stand_once;
use tase_conn::map::replies_are_pdus;

/// The law of offered names: by each table of a lawful centre no name is offered twice in the whole
/// device, none twice in the table's domain, and no more names than a peer may offer.
pub fn centre_names_differ()
    ensures { (rows : CentreRows) (peer variant : ℕ) → IsCentre rows
        → NamesDiffer (own_table rows (variant_of rows peer variant)) }
{
    names_stand_once();
}

/// A node that answers by the table against which it is held lists exactly that table, whichever
/// table of a lawful centre it is: the listing comes to its conclusion, has shown each name of the
/// table with its type and nothing else, and nothing differs.
pub fn tables_list_themselves()
    ensures { (rows : CentreRows) (peer variant : ℕ) (tables : OwnTables) (ordinal : ℕ)
        (replies : ℕ → ReplyKind) → IsCentre rows
        → AreReplies (own_table rows (variant_of rows peer variant)) replies tables ordinal
        → ListsItself (own_table rows (variant_of rows peer variant)) replies }
{
    centre_names_differ();
}

/// The same of messages: a calling end that lists by such a table, hears that its association
/// stands, then of each of its requests what a node answers by this table, then the answers to its
/// conclude and to its finish, has finished. It has shown each name of the table with its type and
/// nothing else, and nothing differs.
pub fn answered_listings_finish()
    ensures { (rows : CentreRows) (peer variant : ℕ) (tables : OwnTables) (ordinal : ℕ)
        (replies : ℕ → ReplyKind) (title : Option (List ℕ)) (a : Admission) → IsCentre rows
        → AreReplies (own_table rows (variant_of rows peer variant)) replies tables ordinal
        → FinishesAlike (own_table rows (variant_of rows peer variant)) replies title a }
{
    tables_list_themselves();
    replies_are_pdus();
}
