//! A node takes a snapshot.
ghost use Rattle.std.specs.Prelude.{◌≡◌, [], reverse, OnOk, OnErr, IfErr};
ghost use Rattle.tase_views.specs.Outcomes.{refusal_of};
ghost use Rattle.node_core.specs.NodeState.{with_entry};
ghost use Rattle.tase_resume.specs.Snapshots.{IsSnapshot};
ghost use Rattle.tase_resume.specs.Resuming.{IsCut, IsCause};

use crate::entries::Snapshot;
use look_count::no_looks;
use node_core::Node;
use std::alloc::Global;
use tase_views::{Entry, StepFault};
use transfer_sets::Looks;

/// Has a node without a history take a snapshot of its centre. Where an entry is refused, memory
/// ran out or the history is full; those before it are taken then.
pub fn resume(alloc: Global, node: &mut Node, snapshot: &Snapshot) -> Result<(), StepFault>
    requires new { node.old.history ≡ [] }
    requires sound { IsSnapshot node.old.setup.centre snapshot.now }
    ensures ok { OnOk result (node.new ≡ record node.old { history = snapshot.now }) }
    ensures err { IfErr result (IsCut node.old node.new snapshot.now) }
{
    let mut looks = no_looks();
    let entries = snapshot.entries();
    for entry in entries {
        take_entry(alloc, node, entry, &mut looks)?;
    }
    Ok(())
}

/// Has a node take an entry.
fn take_entry(
    alloc: Global,
    node: &mut Node,
    entry: &Entry,
    looks: &mut Looks,
) -> Result<(), StepFault>
    ensures ok { OnOk result (node.new ≡ with_entry node.old entry.now.who entry.now.event) }
    ensures err { OnErr result (node.new ≡ node.old) }
    ensures cause { IfErr result (IsCause (refusal_of node.old.setup (reverse node.old.history)
        entry.now.who entry.now.event)) }
{
    let event = entry.event.clone()?;
    match node.step(alloc, entry.who, event, looks) {
        Ok(_) => Ok(()),
        Err(fault) => Err(fault),
    }
}
