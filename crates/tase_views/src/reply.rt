ghost use Rattle.std.specs.Prelude.{◌≡◌};
ghost use Rattle.tase_views.specs.Replies.{IsReply, IsReport};

use ber_values::Visible;
use item_list::ItemList;
use mms_data::types::Shape;
use mms_data::{Name, Names, Outcome};
use sbo_device::{Key, Order};
use std::marker::Model;

/// The reason of an access that a name doesn't exist (ISO 9506-2, `DataAccessError`:
/// object-non-existent).
pub const OBJECT_NON_EXISTENT: u8 = 10;

/// The reason of an access that the peer may not have it (`DataAccessError`:
/// object-access-denied).
pub const OBJECT_ACCESS_DENIED: u8 = 3;

/// The reason of an access that an object takes no part in such a service
/// (`DataAccessError`: object-access-unsupported).
pub const OBJECT_ACCESS_UNSUPPORTED: u8 = 9;

/// The class of errors of definition (ISO 9506-2, `ServiceError`: definition).
pub const DEFINITION_ERRORS: u8 = 2;

/// The error of definition that an object isn't there (object-undefined).
pub const UNDEFINED: u8 = 1;

/// The error of definition that an object is there already (object-exists).
pub const EXISTS: u8 = 5;

/// The class of errors of resources (`ServiceError`: resource).
pub const RESOURCE_ERRORS: u8 = 3;

/// The error of resources of which no more is told (other).
pub const OTHER: u8 = 0;

/// The class of errors of access (ISO 9506-2, `ServiceError`: access).
pub const ACCESS_ERRORS: u8 = 7;

/// The error of access that an object doesn't exist (object-non-existent).
pub const NON_EXISTENT: u8 = 2;

/// The error of access that the peer may not have it (object-access-denied).
pub const ACCESS_DENIED: u8 = 3;

/// The most names of one list of names.
pub const NAMES_LIMIT: usize = 100;

// Definitions cite this limit, so that it stands here as a number too.
const _: () = prove!(NAMES_LIMIT == 100);

/// The outcomes of the variables of a read, in order.
pub type Results = ItemList<Outcome>;

/// What came of each variable of a write, in order: none where it was written, else the number of
/// the reason, a `DataAccessError`.
pub type WriteResults = ItemList<Option<u8>>;

/// The names of objects.
pub type ObjectNames = ItemList<Visible>;

/// What a read named.
#[derive(Drop)]
pub enum ReadSpec {
    /// These variables.
    List(Names),
    /// The members of this data set.
    Set(Name),
}

/// What a call is answered.
#[derive(Drop)]
pub enum ReplyKind {
    /// To an identify: the node's name.
    Identified,
    /// To a read, also of a data set: what it named, where it asked for that, and an outcome for
    /// each variable.
    Results {
        spec: Option<ReadSpec>,
        results: Results,
    },
    /// To a write: what came of each variable.
    Written(WriteResults),
    /// To a list of names: names in the order of their octets, and whether more follow.
    NamesAre {
        names: ObjectNames,
        more: bool,
    },
    /// To a request for the type of a variable.
    TypeIs(Shape),
    /// To a definition: the data set is there now.
    Defined,
    /// To a request for the members of a data set.
    MembersAre(Names),
    /// To a deletion.
    Deleted {
        /// How many of the names were those of data sets that were there.
        matched: u32,
        /// How many of these were deleted.
        deleted: u32,
    },
    /// The call failed: an error's class and code (ISO 9506-2, `ServiceError`).
    Error {
        class: u8,
        code: u8,
    },
    /// The call isn't one: a reject's kind and code (ISO 9506-2, `RejectPDU`).
    Reject {
        kind: u8,
        code: u8,
    },
}

/// The reply to a call: a [`ReplyKind`] with at least one name in what a read named and in members,
/// one to 64 octets in each name, an error's class up to 15, and a reject's kind from 1 to 15.
#[derive(Drop)]
pub struct Reply {
    kind: ReplyKind,
}

impl Model for Reply {
    ghost use Rattle.tase_views.specs.declared.reply.ReplyKind.{ReplyKind};

    ghost Value = { ReplyKind };

    ghost use Rattle.tase_views.specs.ReplyCode.{reply_code};

    ghost coded = { reply_code };

    ghost use Rattle.tase_views.specs.Replies.{IsReply};

    ghost view = { λ reply. reply.kind };

    ghost invariant = { λ reply. IsReply reply.kind };
}

impl Reply {
    pub fn new(kind: ReplyKind) -> Reply
        requires { IsReply kind }
        ensures { result ≡ kind }
    {
        Reply { kind }
    }

    pub fn kind(&self) -> &ReplyKind
        ensures value { result.now ≡ self.now }
        ensures lawful { IsReply self.now }
    {
        &self.kind
    }
}

/// What a report tells (ISO 9506-2, `InformationReport`).
#[derive(Drop)]
pub enum ReportKind {
    /// A data set, with the outcomes of its members, in order.
    Set { set: Name, results: Results },
    /// Variables, with an outcome each, in order.
    Variables { names: Names, results: Results },
}

/// A report to a peer: a [`ReportKind`] with at least one name in variables, and as many outcomes
/// as names.
#[derive(Drop)]
pub struct Report {
    kind: ReportKind,
}

impl Model for Report {
    ghost use Rattle.tase_views.specs.declared.reply.ReportKind.{ReportKind};

    ghost Value = { ReportKind };

    ghost use Rattle.tase_views.specs.ReplyCode.{report_code};

    ghost coded = { report_code };

    ghost use Rattle.tase_views.specs.Replies.{IsReport};

    ghost view = { λ report. report.kind };

    ghost invariant = { λ report. IsReport report.kind };
}

impl Report {
    pub fn new(kind: ReportKind) -> Report
        requires { IsReport kind }
        ensures { result ≡ kind }
    {
        Report { kind }
    }

    pub fn kind(&self) -> &ReportKind
        ensures value { result.now ≡ self.now }
        ensures lawful { IsReport self.now }
    {
        &self.kind
    }
}

/// Reports in the order in which they were made.
pub type Reports = ItemList<Report>;

/// Orders in the order in which they were given.
pub type Orders = ItemList<Order>;

/// The node's answer to an event.
#[derive(Drop)]
pub enum Answer {
    /// To an open: the association that it opened.
    Opened { key: Key },
    /// To a request.
    Reply(Reply),
    /// To a take: the reports that were made for the association since its last take.
    Reports(Reports),
    /// To a close: the association is closed.
    Closed,
    /// To a take of orders: those that were given since the last one.
    Orders(Orders),
    /// To every other event: it was taken.
    Noted,
}
