//! What may fail in a case, and what must come of it.

use crate::playing::Played;
use crate::text::{Case, Device, Failing, Input, Listening, Network, Node, Wanted, WantedFile};
use std::alloc::{AllocError, Global};

// A server starts a job for its feed and one for its clock, and then one for each link.
const FIRST_LINK: u64 = 2;

// Notes the reads of inputs.
fn note_inputs<'a>(
    devices: &mut Vec<(Device, &'a str)>,
    inputs: &'a [Input],
) -> Result<(), AllocError> {
    for input in inputs {
        devices.push((Device::Read, input.name.as_str()))?;
    }
    Ok(())
}

// Notes the calls of a node's link.
fn note_link<'a>(devices: &mut Vec<(Device, &'a str)>, name: &'a str) -> Result<(), AllocError> {
    devices.extend_from_slice(&[(Device::Recv, name), (Device::Send, name)])
}

// Notes the writes of standard output and of files.
fn note_files<'a>(
    devices: &mut Vec<(Device, &'a str)>,
    files: &'a [WantedFile],
) -> Result<(), AllocError> {
    devices.push((Device::Write, "-"))?;
    for file in files {
        devices.push((Device::Write, file.name.as_str()))?;
    }
    Ok(())
}

// Notes the calls of the links of nodes.
fn note_nodes<'a>(
    devices: &mut Vec<(Device, &'a str)>,
    nodes: &'a [Node],
) -> Result<(), AllocError> {
    for node in nodes {
        note_link(devices, node.name.as_str())?;
    }
    Ok(())
}

// Notes the calls at an address at which nodes connect.
fn note_listening<'a>(
    devices: &mut Vec<(Device, &'a str)>,
    listening: &'a Listening,
) -> Result<(), AllocError> {
    devices.extend_from_slice(&[(Device::Accept, ""), (Device::Start, "")])?;
    note_nodes(devices, &listening.nodes)
}

// Notes the calls of all links.
fn note_network<'a>(
    devices: &mut Vec<(Device, &'a str)>,
    network: &'a Network,
) -> Result<(), AllocError> {
    note_nodes(devices, &network.nodes)?;
    for listening in &network.listens {
        note_listening(devices, listening)?;
    }
    Ok(())
}

/// What calls may fail of what lies outside of a case, each with its name.
pub(crate) fn devices_of(alloc: Global, case: &Case) -> Result<Vec<(Device, &str)>, AllocError> {
    let mut devices = Vec::new(alloc);
    note_inputs(&mut devices, &case.given)?;
    note_inputs(&mut devices, &case.own)?;
    note_files(&mut devices, &case.files)?;
    note_network(&mut devices, &case.network)?;
    devices.push((Device::Clock, ""))?;
    Ok(devices)
}

// Whether a call is of a link that a listener gave, or the start of a job for one: then all is as
// if nothing had failed, but for that link.
fn is_of_link(failing: &Failing, played: &Played) -> bool {
    match failing.device {
        Device::Start => failing.number >= FIRST_LINK,
        Device::Recv | Device::Send => played.faults == 0,
        Device::Read | Device::Write | Device::Accept | Device::Clock => false,
    }
}

/// Whether a case came out as it must where this call failed: with status 4, unless the call was of
/// a link that a listener gave, and with a front part of all that goes out where nothing fails. A
/// server that fails aborts the associations of its links, so what these took may be otherwise.
pub(crate) fn is_answered(case: &Case, failing: &Failing, played: &Played) -> bool {
    let is_front = is_shown_front(case, played) && are_front_parts(case, played);
    if is_of_link(failing, played) {
        return is_front && played.told.is_front && played.status == case.status;
    }
    let is_server = !case.network.listens.is_empty();
    is_front && (is_server || played.told.is_front) && played.status == 4
}

// Whether a front part of what is wanted was printed.
fn is_shown_front(case: &Case, played: &Played) -> bool {
    match &case.wanted {
        Wanted::Octets(octets) => octets.as_slice().starts_with(played.shown()),
        Wanted::Count(count) => played.shown().len() as u64 <= *count,
        Wanted::Any => true,
    }
}

// Whether each file took a front part of what it takes where nothing fails.
fn are_front_parts(case: &Case, played: &Played) -> bool {
    for file in &case.files {
        if let Some(octets) = &file.octets {
            if !octets.as_slice().starts_with(played.file(&file.name)) {
                return false;
            }
        }
    }
    true
}
