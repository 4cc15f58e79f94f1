//! The open associations of a peer, and the reports that they haven't taken.
ghost use Rattle.std.specs.Prelude.{◌≡◌, ◌<◌, ◌++◌, [], ◌∷◌, map, length, slice_set, OnOk};
ghost use Rattle.std.specs.Prelude.{OnErr, ◌==◌, if◌then◌else◌};
ghost use Rattle.node_core.specs.Slots.Associations.{new_association, association_at, open_without};
ghost use Rattle.node_core.specs.Slots.Associations.{undrafted, drafted_by, with_drafted};
ghost use Rattle.node_core.specs.Slots.Associations.{behind_take};
ghost use Rattle.node_core.specs.Slots.Associations.{made_for};

use std::alloc::{AllocError, Global};
use std::marker::Model;
use std::mem;
use tase_views::{Report, Reports};

/// An open association, by its ordinal, with its reports: first those that were made for it since
/// its last take, behind them those of an event that isn't noted yet.
#[derive(Drop)]
struct Association {
    ordinal: u64,
    reports: Vec<Report>,
    /// How many of the reports were made.
    made: usize,
}

impl Model for Association {
    ghost use Rattle.std.specs.Prelude.{◌≤◌, take, drop, length};
    ghost use Rattle.std.specs.Coded.{codes};
    ghost use Rattle.mms_data.specs.contracts.data.MmsData as datum;
    ghost use Rattle.node_core.specs.Slots.Associations.{OpenAssociation};

    ghost Value = { OpenAssociation };

    ghost coded = { Prim.hlevel (codes, datum.the_row.coded) };

    ghost view = { λ a. record {
      ordinal = a.ordinal;
      made = take a.made a.reports.items;
      drafted = drop a.made a.reports.items;
    } };

    ghost invariant = { λ a. a.made ≤ length a.reports.items };
}

impl Association {
    fn new(alloc: Global, ordinal: u64) -> Association
        ensures { result ≡ new_association ordinal }
    {
        Association {
            ordinal,
            reports: Vec::new(alloc),
            made: 0,
        }
    }

    fn ordinal(&self) -> u64
        ensures { result ≡ self.now.ordinal }
    {
        self.ordinal
    }

    /// Drafts reports, in place of those that were.
    fn draft(&mut self, reports: Reports) -> Result<(), AllocError>
        ensures made { undrafted self.new ≡ undrafted self.old }
        ensures ok { OnOk result (self.new ≡ drafted_by reports self.old) }
    {
        let mut reports = reports.into_vec();
        self.reports.truncate(self.made);
        self.reports.append(&mut reports)?;
        Ok(())
    }

    /// Drafts reports behind those that were.
    fn draft_more(&mut self, reports: Reports) -> Result<(), AllocError>
        ensures made { undrafted self.new ≡ undrafted self.old }
        ensures ok { OnOk result (self.new ≡ drafted_by (self.old.drafted ++ reports) self.old) }
    {
        let mut reports = reports.into_vec();
        self.reports.append(&mut reports)?;
        Ok(())
    }

    /// What is drafted is made.
    fn keep_draft(&mut self)
        ensures { self.new ≡ with_drafted self.old }
    {
        self.made = self.reports.len();
    }

    /// Hands the reports out that were made.
    fn take(&mut self, alloc: Global) -> Reports
        ensures made { result ≡ self.old.made }
        ensures left { self.new ≡ new_association self.old.ordinal }
    {
        self.reports.truncate(self.made);
        self.made = 0;
        Reports::from_vec(mem::replace(&mut self.reports, Vec::new(alloc)))
    }

    /// The same, where it is the association with this ordinal.
    fn take_if(&mut self, alloc: Global, ordinal: u64, taken: &mut Reports)
        ensures left { self.new ≡ behind_take ordinal self.old }
        ensures taken { taken.new
            ≡ (if self.old.ordinal == ordinal then self.old.made else taken.old) }
    {
        if self.ordinal == ordinal {
            *taken = self.take(alloc);
        }
    }
}

/// The open associations of a peer, in the order in which they were opened.
#[derive(Drop)]
pub struct Associations {
    list: Vec<Association>,
}

impl Model for Associations {
    ghost use Rattle.std.specs.Prelude.{List};
    ghost use Rattle.std.specs.Coded.{codes};
    ghost use Rattle.mms_data.specs.contracts.data.MmsData as datum;
    ghost use Rattle.node_core.specs.Slots.Associations.{OpenAssociation};

    ghost Value = { List OpenAssociation };

    ghost coded = { Prim.hlevel (codes, datum.the_row.coded) };

    ghost view = { λ a. a.list.items };
}

impl Associations {
    /// None is open.
    pub fn new(alloc: Global) -> Associations
        ensures { result ≡ [] }
    {
        Associations {
            list: Vec::new(alloc),
        }
    }

    /// How many are open.
    pub fn len(&self) -> usize
        ensures { result ≡ length self.now }
    {
        self.list.len()
    }

    /// The ordinal of the association at a place.
    pub fn ordinal(&self, place: usize) -> u64
        requires { place < length self.now }
        ensures { result ≡ (association_at self.now place).ordinal }
    {
        self.list[place].ordinal()
    }

    /// One more is opened. After want of memory nothing has changed.
    pub fn open(&mut self, alloc: Global, ordinal: u64) -> Result<(), AllocError>
        ensures ok { OnOk result (self.new ≡ self.old ++ new_association ordinal ∷ []) }
        ensures err { OnErr result (self.new ≡ self.old) }
    {
        self.list.push(Association::new(alloc, ordinal))?;
        Ok(())
    }

    /// One is closed, and its reports are dropped. It takes no memory.
    pub fn close(&mut self, ordinal: u64)
        ensures { self.new ≡ open_without ordinal self.old }
    {
        self.list
            .retain(|association| association.ordinal() != ordinal);
    }

    /// Drafts reports for the association at a place, in place of those that were.
    pub fn draft(&mut self, place: usize, reports: Reports) -> Result<(), AllocError>
        requires { place < length self.old }
        ensures made { map undrafted self.new ≡ map undrafted self.old }
        ensures ok { OnOk result (self.new
            ≡ slice_set self.old place (drafted_by reports (association_at self.old place))) }
    {
        self.list[place].draft(reports)?;
        Ok(())
    }

    /// Drafts reports for the association at a place, behind those that were.
    pub fn draft_more(&mut self, place: usize, reports: Reports) -> Result<(), AllocError>
        requires { place < length self.old }
        ensures made { map undrafted self.new ≡ map undrafted self.old }
        ensures ok { OnOk result (let old = association_at self.old place in
            self.new ≡ slice_set self.old place (drafted_by (old.drafted ++ reports) old)) }
    {
        self.list[place].draft_more(reports)?;
        Ok(())
    }

    /// What is drafted for them is made. It takes no memory.
    pub fn keep_drafts(&mut self)
        ensures { self.new ≡ map with_drafted self.old }
    {
        for place in 0..self.list.len() {
            self.list[place].keep_draft();
        }
    }

    /// Hands the reports out that were made for an association since its last take. It takes no
    /// memory.
    pub fn take(&mut self, alloc: Global, ordinal: u64) -> Reports
        ensures made { result ≡ made_for ordinal self.old }
        ensures left { self.new ≡ map (behind_take ordinal) self.old }
    {
        let mut taken = Reports::new(alloc);
        for place in (0..self.list.len()).rev() {
            self.list[place].take_if(alloc, ordinal, &mut taken);
        }
        taken
    }
}
