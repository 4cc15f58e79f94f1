//! The node in its turn.
ghost use Rattle.std.specs.Prelude.{◌≡◌, [], IfOk};
ghost use Rattle.share_turn.specs.Public.{IsOf};
ghost use Rattle.node_server.specs.Turn.Logged.{turn_setup};

use bilateral::Centre;
use look_count::no_looks;
use node_core::Node;
use share_turn::{Object, Seat, Shared};
use std::alloc::{AllocError, Global};
use tase_views::{Answer, Event, StepFault};

/// What a node is set up with, which no step changes: the tables of its centre, and the limit on
/// the weight of its history. No value of it is made.
pub struct NodeSetup {
    pub centre: Centre,
    pub limit: u64,
}

/// A node whose steps threads share.
#[derive(Drop)]
pub struct TurnNode {
    pub node: Node,
}

impl Object for TurnNode {
    ghost use Rattle.node_server.specs.Turn.Logged.{turn_setup, turn_log, IsRightTurn};

    type Setup = NodeSetup;

    type Event = Event;

    type Answer = Answer;

    type Fault = StepFault;

    ghost setup = { λ n. turn_setup n.node.setup };

    ghost history = { λ n. turn_log n.node.history };

    ghost right = { IsRightTurn };

    fn step(&mut self, alloc: Global, who: u64, event: Event) -> Result<Answer, StepFault> {
        let mut looks = no_looks();
        self.node.step(alloc, who, event, &mut looks)
    }
}

/// Shares a node that has taken no event yet, and gives the first seat.
pub fn share(alloc: Global, node: Node) -> Result<(Shared<TurnNode>, Seat<TurnNode>), AllocError>
    requires { node.history ≡ [] }
    ensures setup { IfOk result (λ r. r.0.setup ≡ turn_setup node.setup) }
    ensures seat { IfOk result (λ r. IsOf r.0 r.1 × (r.1.number ≡ 0) × (r.1.front ≡ [])) }
{
    Shared::new(alloc, TurnNode { node })
}

/// Threads may use the shared node at once, and a seat of it may go to another thread: this
/// compiles. It gives the seat back.
pub fn threads_may_share(shared: &Shared<TurnNode>, seat: Seat<TurnNode>) -> Seat<TurnNode>
    ensures { result ≡ seat }
{
    used_at_once(shared);
    sent_over(seat)
}

/// Takes what threads may use at once.
fn used_at_once<T: Sync>(_value: &T) {}

/// Takes what may go to another thread.
fn sent_over<T: Send>(value: T) -> T
    ensures { result ≡ value }
{
    value
}
