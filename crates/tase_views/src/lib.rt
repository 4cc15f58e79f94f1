//! Events, calls and replies of a TASE.2 node, what events weigh, and the definitions by which the
//! node is judged: associations, a peer's own tables, a peer's view of the history, and the answer
//! to each event.
#![tactic(auto)]

mod call;
mod event;
mod fault;
mod laws;
mod reply;
mod slots;
mod tag;
mod weights;

pub use call::{Call, CallKind, DOMAINS, NAMED_VARIABLE_LISTS, NAMED_VARIABLES, Values};
pub use event::{Entry, Event, EventKind};
pub use fault::StepFault;
pub use laws::{
    devices_are_seen_as_they_are, due_conditions_are_those, nothing_is_made_without_offers,
    orders_are_answered, orders_are_given_once, others_are_unseen, refusals_are_of_the_seat,
    seats_are_unseen, two_worlds, types_may_be_told, unseen_moves_change_nothing,
    what_a_peer_is_not_shown,
};
pub use reply::{
    ACCESS_DENIED, ACCESS_ERRORS, Answer, DEFINITION_ERRORS, EXISTS, NAMES_LIMIT, NON_EXISTENT,
    OBJECT_ACCESS_DENIED, OBJECT_ACCESS_UNSUPPORTED, OBJECT_NON_EXISTENT, OTHER, ObjectNames,
    Orders, RESOURCE_ERRORS, ReadSpec, Reply, ReplyKind, Report, ReportKind, Reports, Results,
    UNDEFINED, WriteResults,
};
pub use slots::has_slot;
pub use tag::DeviceTag;
pub use weights::weight;
