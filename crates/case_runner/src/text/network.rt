//! The nodes, the addresses and the clock of a case.
ghost use Rattle.std.specs.Prelude.{IfOk};
ghost use Rattle.outside.specs.Links.Links.{IsNewLink};
ghost use Rattle.outside.specs.Links.ScriptStates.{script_link_told, AllNewLinks};

use crate::text::failing::{Device, Failures};
use outside::links::{LinkItem, ScriptClock, ScriptLink, ScriptListener};
use outside::names::MemoryOutside;
use std::alloc::{AllocError, Global};

/// The most octets that a link takes at a send, and in all.
const MOST_TAKEN: usize = 65_536;

/// A node at the other end of a link: the octets that it says, a piece each, behind which its link
/// ends, and what it must take where that is said.
#[derive(Drop)]
pub struct Node {
    pub name: String,
    pub says: Vec<Vec<u8>>,
    pub takes: Option<Vec<u8>>,
}

/// An address at which these nodes connect, one after another.
#[derive(Drop)]
pub struct Listening {
    pub address: String,
    pub nodes: Vec<Node>,
}

/// What lies outside beside names.
#[derive(Drop)]
pub struct Network {
    /// The nodes that can be connected to, each at its name.
    pub nodes: Vec<Node>,
    pub listens: Vec<Listening>,
    pub readings: Vec<u64>,
    /// The number of the recv at which all links that were given wait for each other.
    pub meeting: Option<u64>,
}

impl Node {
    // What its link brings.
    fn items(&self, alloc: Global) -> Result<Vec<LinkItem>, AllocError> {
        let mut items = Vec::new(alloc);
        for piece in &self.says {
            items.push(LinkItem::Piece(Vec::from_slice(alloc, piece)?))?;
        }
        items.push(LinkItem::End)?;
        Ok(items)
    }

    fn link(&self, alloc: Global, failures: Failures<'_>) -> Result<ScriptLink, AllocError>
        ensures { IfOk result (λ link. IsNewLink (script_link_told link)) }
    {
        let items = self.items(alloc)?;
        let recvs = failures.numbers(alloc, Device::Recv, &self.name)?;
        let sends = failures.numbers(alloc, Device::Send, &self.name)?;
        let name = String::from_str(alloc, &self.name)?;
        let mut link = ScriptLink::new(alloc, items, MOST_TAKEN, MOST_TAKEN, recvs, sends)?;
        link.set_name(name);
        Ok(link)
    }

    // Puts it outside at its name.
    fn put(
        &self,
        alloc: Global,
        outside: &mut MemoryOutside,
        failures: Failures<'_>,
    ) -> Result<(), AllocError> {
        let link = self.link(alloc, failures)?;
        outside.put_link(alloc, &self.name, link)
    }
}

impl Listening {
    /// The links of its nodes.
    fn links_of(
        &self,
        alloc: Global,
        failures: Failures<'_>,
    ) -> Result<Vec<Option<ScriptLink>>, AllocError>
        ensures { IfOk result (λ links. AllNewLinks links.items) }
    {
        let mut links = Vec::new(alloc);
        for node in &self.nodes {
            let link = node.link(alloc, failures)?;
            links.push(Some(link))?;
        }
        Ok(links)
    }

    fn listener(
        &self,
        alloc: Global,
        failures: Failures<'_>,
    ) -> Result<ScriptListener, AllocError> {
        let links = self.links_of(alloc, failures)?;
        let fails = failures.numbers(alloc, Device::Accept, "")?;
        ScriptListener::new(alloc, links, fails)
    }

    // Puts it outside at its address.
    fn put(
        &self,
        alloc: Global,
        outside: &mut MemoryOutside,
        failures: Failures<'_>,
    ) -> Result<(), AllocError> {
        let listener = self.listener(alloc, failures)?;
        outside.put_listener(alloc, &self.address, listener)
    }
}

// The node with this name among these.
fn named_in<'a>(nodes: &'a mut [Node], name: &str) -> Option<&'a mut Node> {
    for node in nodes {
        if node.name.as_str() == name {
            return Some(node);
        }
    }
    None
}

// The node with this name among those that connect.
fn connecting_named<'a>(listens: &'a mut [Listening], name: &str) -> Option<&'a mut Node> {
    for listening in listens {
        if let Some(node) = named_in(&mut listening.nodes, name) {
            return Some(node);
        }
    }
    None
}

impl Network {
    /// No node, no address, and a clock without readings of its own.
    pub(crate) fn new(alloc: Global) -> Network {
        Network {
            nodes: Vec::new(alloc),
            listens: Vec::new(alloc),
            readings: Vec::new(alloc),
            meeting: None,
        }
    }

    /// The node with this name.
    pub(crate) fn node_named(&mut self, name: &str) -> Option<&mut Node> {
        match named_in(&mut self.nodes, name) {
            Some(node) => Some(node),
            None => connecting_named(&mut self.listens, name),
        }
    }

    /// Puts all of it outside, with the calls that fail.
    pub fn put(
        &self,
        alloc: Global,
        outside: &mut MemoryOutside,
        failures: Failures<'_>,
    ) -> Result<(), AllocError> {
        for node in &self.nodes {
            node.put(alloc, outside, failures)?;
        }
        for listening in &self.listens {
            listening.put(alloc, outside, failures)?;
        }
        let readings = Vec::from_slice(alloc, &self.readings)?;
        let fails = failures.numbers(alloc, Device::Clock, "")?;
        outside.put_clock(ScriptClock::new(alloc, readings, fails));
        Ok(())
    }
}
