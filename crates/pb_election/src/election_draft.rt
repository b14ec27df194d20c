//! An election as far as its file has been read.
ghost use Rattle.std.specs.Prelude.{◌≡◌, ◌≤◌, ◌<◌, ◌+◌, true, false, length, None, Some, IfOk, OnOk};
ghost use Rattle.csv.specs.Records.{fields_of};
ghost use Rattle.pb_election.specs.Inside.Beginnings.{AtStart, HasRead, so_far_of};
ghost use Rattle.pb_election.specs.Names.{is_among};
ghost use Rattle.pb_records.specs.Cells.{is_text};
ghost use Rattle.pb_election.specs.Markers.{marker_of};
ghost use Rattle.pb_election.specs.Faults.{election_form, lowest_fault_at_end};
ghost use Rattle.pb_election.specs.Instance.{most_projects};
ghost use Rattle.pb_election.specs.Rows as rows;
ghost use Rattle.pb_election.specs.Inside.SoFar.{Steps, before_next};
ghost use Rattle.pb_election.specs.Text.{IsElection};
ghost use Rattle.pb_election.specs.Inside.ProjectRows.{AddsProject};

use crate::columns::{
    Columns, UnusedColumns, columns_of, field_in, misses, repeats, unused_columns_of, vote_column,
};
use crate::election::Election;
use crate::ids::{Ids, is_id};
use crate::keys::{Key, Keys, count_in, is_approval, key_in};
use crate::markers::marker_of;
use crate::refusal::ElectionFault;
use crate::sections::{RecordRole, Section};
use crate::votes::ballot_in;
use csv::StringRecord;
use pb_money::Money;
use pb_records::{Draft, RaggedArray, Stop, cell};
use std::alloc::{AllocError, Global};
use std::marker::Model;

/// The most projects of an election.
const MOST_PROJECTS: usize = 20_000;

/// The most voters of an election.
pub const MOST_VOTERS: usize = 1_000_000;

/// The most approvals over all ballots of an election.
const MOST_APPROVALS: usize = 20_000_000;

/// What the rows of META state.
#[derive(Drop)]
pub(crate) struct MetaRows {
    pub keys: Keys,
    pub limit: Money,
    pub declared_projects: Option<u64>,
    pub declared_votes: Option<u64>,
}

/// What the header and the rows of PROJECTS state.
#[derive(Drop)]
pub(crate) struct ProjectRows {
    pub columns: Columns,
    pub ids: Ids,
    pub costs: Vec<Money>,
    pub selected: Option<Vec<bool>>,
    pub other_selected: u32,
}

/// What the header and the rows of VOTES state.
#[derive(Drop)]
pub(crate) struct VoteRows {
    pub column: Option<usize>,
    pub unused: UnusedColumns,
    pub ballots: RaggedArray<u32>,
    // The ballot of the row at hand.
    pub ballot: Vec<u32>,
}

/// What has been read of an election's file.
#[derive(Drop)]
pub(crate) struct ElectionDraft {
    alloc: Global,
    role: RecordRole,
    pub meta: MetaRows,
    pub projects: ProjectRows,
    pub votes: VoteRows,
}

impl Model for ElectionDraft {
    ghost use Rattle.std.specs.Prelude.{◌≤◌, length};
    ghost use Rattle.std.specs.Option.{option_map};
    ghost use Rattle.pb_election.specs.Instance.{approvals, most_approvals, most_projects};
    ghost use Rattle.pb_election.specs.Inside.SoFar.{SoFar};

    ghost Value = { SoFar };

    ghost view = { λ a. record {
      role = a.role;
      keys = a.meta.keys;
      columns = a.projects.columns;
      vote_column = a.votes.column;
      election = record {
        limit = a.meta.limit;
        ids = a.projects.ids;
        costs = a.projects.costs.items;
        selected = option_map (λ v. v.items) a.projects.selected;
        other_selected = a.projects.other_selected;
        declared_projects = a.meta.declared_projects;
        declared_votes = a.meta.declared_votes;
        unused = a.votes.unused;
        ballots = a.votes.ballots;
      };
    } };

    ghost invariant = { λ a. (length a.projects.ids ≤ most_projects) × (a.projects.other_selected ≤ length a.projects.ids) × (approvals a.votes.ballots ≤ most_approvals) };
}

impl ElectionDraft {
    pub fn new(alloc: Global) -> Result<ElectionDraft, AllocError>
        ensures { IfOk result (λ draft. draft ≡ so_far_of AtStart) }
    {
        Ok(ElectionDraft {
            alloc,
            role: RecordRole::First,
            meta: MetaRows {
                keys: Keys {
                    budget: false,
                    vote_type: false,
                    num_projects: false,
                    num_votes: false,
                },
                limit: Money::default(),
                declared_projects: None,
                declared_votes: None,
            },
            projects: ProjectRows {
                columns: Columns {
                    id: None,
                    cost: None,
                    selected: None,
                },
                ids: Ids::new(alloc)?,
                costs: Vec::new(alloc),
                selected: None,
                other_selected: 0,
            },
            votes: VoteRows {
                column: None,
                unused: UnusedColumns::none(),
                ballots: RaggedArray::new(alloc)?,
                ballot: Vec::new(alloc),
            },
        })
    }

    // One more record, which is text and not blank.
    fn take_record(&mut self, row: &StringRecord) -> Result<(), Stop<ElectionFault>>
        requires { is_text (fields_of row.now) ≡ true }
        ensures { Steps result self.old self.new (fields_of row.now) }
    {
        match self.role {
            RecordRole::First => self.take_first(row),
            RecordRole::Header(Section::Meta) => self.take_meta_header(row),
            RecordRole::Header(Section::Projects) => self.take_project_header(row),
            RecordRole::Header(Section::Votes) => self.take_vote_header(row),
            RecordRole::Inside(Section::Meta) => self.take_meta(row),
            RecordRole::Inside(Section::Projects) => self.take_project(row),
            RecordRole::Inside(Section::Votes) => self.take_vote(row),
        }
    }

    #[tactic(auto, unfolding(crate::specs::Faults::lowest_fault))]
    fn take_first(&mut self, row: &StringRecord) -> Result<(), Stop<ElectionFault>>
        requires text { is_text (fields_of row.now) ≡ true }
        requires role { self.old.role ≡ RecordRole.First }
        ensures { Steps result self.old self.new (fields_of row.now) }
    {
        if marker_of(row) != Some(Section::Meta) {
            return Err(Stop::Fault(ElectionFault::NoMeta));
        }
        self.role = RecordRole::Header(Section::Meta);
        Ok(())
    }

    #[tactic(auto, unfolding(crate::specs::Faults::lowest_fault))]
    fn take_meta_header(&mut self, row: &StringRecord) -> Result<(), Stop<ElectionFault>>
        requires text { is_text (fields_of row.now) ≡ true }
        requires role { self.old.role ≡ RecordRole.Header Section.Meta }
        ensures { Steps result self.old self.new (fields_of row.now) }
    {
        if marker_of(row).is_some() {
            return Err(Stop::Fault(ElectionFault::NoHeader));
        }
        self.role = RecordRole::Inside(Section::Meta);
        Ok(())
    }

    #[tactic(auto, unfolding(crate::specs::Faults::lowest_fault))]
    fn take_project_header(&mut self, row: &StringRecord) -> Result<(), Stop<ElectionFault>>
        requires text { is_text (fields_of row.now) ≡ true }
        requires role { self.old.role ≡ RecordRole.Header Section.Projects }
        ensures { Steps result self.old self.new (fields_of row.now) }
    {
        if marker_of(row).is_some() {
            return Err(Stop::Fault(ElectionFault::NoHeader));
        }
        if misses(Section::Projects, row) {
            return Err(Stop::Fault(ElectionFault::MissingColumn));
        }
        if repeats(Section::Projects, row) {
            return Err(Stop::Fault(ElectionFault::RepeatedColumn));
        }
        let columns = columns_of(row);
        self.projects.columns = columns;
        self.projects.selected = columns.selected.map(|_| Vec::new(self.alloc));
        self.role = RecordRole::Inside(Section::Projects);
        Ok(())
    }

    #[tactic(auto, unfolding(crate::specs::Faults::lowest_fault))]
    fn take_vote_header(&mut self, row: &StringRecord) -> Result<(), Stop<ElectionFault>>
        requires text { is_text (fields_of row.now) ≡ true }
        requires role { self.old.role ≡ RecordRole.Header Section.Votes }
        ensures { Steps result self.old self.new (fields_of row.now) }
    {
        if marker_of(row).is_some() {
            return Err(Stop::Fault(ElectionFault::NoHeader));
        }
        if misses(Section::Votes, row) {
            return Err(Stop::Fault(ElectionFault::MissingColumn));
        }
        if repeats(Section::Votes, row) {
            return Err(Stop::Fault(ElectionFault::RepeatedColumn));
        }
        self.votes.column = vote_column(row);
        self.votes.unused = unused_columns_of(row);
        self.role = RecordRole::Inside(Section::Votes);
        Ok(())
    }

    #[tactic(auto, unfolding(crate::specs::Faults::lowest_fault))]
    fn take_meta(&mut self, row: &StringRecord) -> Result<(), Stop<ElectionFault>>
        requires text { is_text (fields_of row.now) ≡ true }
        requires role { self.old.role ≡ RecordRole.Inside Section.Meta }
        ensures { Steps result self.old self.new (fields_of row.now) }
    {
        if let Some(section) = marker_of(row) {
            if section != Section::Projects {
                return Err(Stop::Fault(ElectionFault::UnexpectedSection));
            }
            if !(self.meta.keys.budget && self.meta.keys.vote_type) {
                return Err(Stop::Fault(ElectionFault::MissingKey));
            }
            self.role = RecordRole::Header(Section::Projects);
            return Ok(());
        }
        match key_in(row) {
            Some(key) => self.take_key(key, row),
            None => Ok(()),
        }
    }

    // A row of META whose key is read.
    #[tactic(auto, unfolding(crate::specs::Faults::lowest_fault))]
    fn take_key(&mut self, key: Key, row: &StringRecord) -> Result<(), Stop<ElectionFault>>
        requires text { is_text (fields_of row.now) ≡ true }
        requires role { self.old.role ≡ RecordRole.Inside Section.Meta }
        requires row { marker_of (fields_of row.now) ≡ None }
        requires key { rows.key_in (fields_of row.now) ≡ Some key }
        ensures { Steps result self.old self.new (fields_of row.now) }
    {
        if self.meta.keys.has_stood(key) {
            return Err(Stop::Fault(ElectionFault::RepeatedKey));
        }
        let value = cell(row, 1);
        match key {
            Key::Budget => {
                let Ok(limit) = Money::read(value.as_bytes()) else {
                    return Err(Stop::Fault(ElectionFault::BadMoney));
                };
                self.meta.limit = limit;
                self.meta.keys.budget = true;
                Ok(())
            }
            Key::VoteType => {
                if !is_approval(value) {
                    return Err(Stop::Fault(ElectionFault::NotApproval));
                }
                self.meta.keys.vote_type = true;
                Ok(())
            }
            Key::NumProjects => {
                self.meta.declared_projects = count_in(value);
                self.meta.keys.num_projects = true;
                Ok(())
            }
            Key::NumVotes => {
                self.meta.declared_votes = count_in(value);
                self.meta.keys.num_votes = true;
                Ok(())
            }
        }
    }

    #[tactic(auto, unfolding(crate::specs::Faults::lowest_fault))]
    fn take_project(&mut self, row: &StringRecord) -> Result<(), Stop<ElectionFault>>
        requires text { is_text (fields_of row.now) ≡ true }
        requires role { self.old.role ≡ RecordRole.Inside Section.Projects }
        ensures { Steps result self.old self.new (fields_of row.now) }
    {
        if let Some(section) = marker_of(row) {
            if section != Section::Votes {
                return Err(Stop::Fault(ElectionFault::UnexpectedSection));
            }
            self.role = RecordRole::Header(Section::Votes);
            return Ok(());
        }
        let Ok(cost) = Money::read(field_in(self.projects.columns.cost, row).as_bytes()) else {
            return Err(Stop::Fault(ElectionFault::BadMoney));
        };
        let id = field_in(self.projects.columns.id, row);
        if !is_id(id) {
            return Err(Stop::Fault(ElectionFault::BadId));
        }
        if self.projects.ids.has(id) {
            return Err(Stop::Fault(ElectionFault::RepeatedProject));
        }
        if self.projects.ids.len() >= MOST_PROJECTS {
            return Err(Stop::Fault(ElectionFault::TooMany));
        }
        let selected = field_in(self.projects.columns.selected, row);
        match self.projects.add(self.alloc, id, cost, selected) {
            Ok(()) => Ok(()),
            Err(_) => Err(Stop::Memory),
        }
    }

    #[tactic(auto, unfolding(crate::specs::Faults::lowest_fault, crate::specs::Rows::is_known))]
    fn take_vote(&mut self, row: &StringRecord) -> Result<(), Stop<ElectionFault>>
        requires text { is_text (fields_of row.now) ≡ true }
        requires role { self.old.role ≡ RecordRole.Inside Section.Votes }
        ensures { Steps result self.old self.new (fields_of row.now) }
    {
        if marker_of(row).is_some() {
            return Err(Stop::Fault(ElectionFault::UnexpectedSection));
        }
        let vote = field_in(self.votes.column, row);
        let Ok(known) = ballot_in(&self.projects.ids, vote, &mut self.votes.ballot) else {
            return Err(Stop::Memory);
        };
        if !known {
            return Err(Stop::Fault(ElectionFault::UnknownProject));
        }
        if self.votes.ballots.len() >= MOST_VOTERS {
            return Err(Stop::Fault(ElectionFault::TooMany));
        }
        if self.votes.ballot.len() > MOST_APPROVALS - self.votes.ballots.total_len() {
            return Err(Stop::Fault(ElectionFault::TooMany));
        }
        match self.votes.ballots.push(&self.votes.ballot) {
            Ok(()) => Ok(()),
            Err(_) => Err(Stop::Memory),
        }
    }

    // The fault of the end of the file, if it has one here.
    #[tactic(auto, unfolding(crate::specs::Faults::lowest_fault_at_end))]
    fn fault_at_end(&self) -> Option<ElectionFault>
        ensures { result ≡ lowest_fault_at_end (before_next self.now) }
    {
        match self.role {
            RecordRole::First => Some(ElectionFault::NoMeta),
            RecordRole::Header(_) => Some(ElectionFault::NoHeader),
            RecordRole::Inside(Section::Votes) => None,
            RecordRole::Inside(_) => Some(ElectionFault::MissingSection),
        }
    }

    /// The election that was read.
    pub fn into_election(self) -> Election
        requires { IsElection self.election }
        ensures { result ≡ self.election }
    {
        let ElectionDraft {
            alloc: _,
            role: _,
            meta,
            projects,
            votes,
        } = self;
        Election {
            limit: meta.limit,
            ids: projects.ids,
            costs: projects.costs,
            selected: projects.selected,
            other_selected: projects.other_selected,
            declared_projects: meta.declared_projects,
            declared_votes: meta.declared_votes,
            unused: votes.unused,
            ballots: votes.ballots,
        }
    }
}

impl Draft<()> for ElectionDraft {
    type Fault = ElectionFault;

    ghost form = { λ _. election_form };

    ghost HasTaken = { λ _. HasRead };

    fn take(&mut self, _against: &(), row: &StringRecord) -> Result<(), Stop<ElectionFault>> {
        self.take_record(row)
    }

    fn end(&self, _against: &()) -> Option<ElectionFault> {
        self.fault_at_end()
    }

    fn not_text(&self, _against: &()) -> ElectionFault {
        ElectionFault::NotUtf8
    }
}

impl ProjectRows {
    // Adds a project of a new id.
    fn add(
        &mut self,
        alloc: Global,
        id: &str,
        cost: Money,
        selected: &str,
    ) -> Result<(), AllocError>
        requires new { is_among self.old.ids id.now ≡ false }
        requires room { length self.old.ids < most_projects }
        requires others { self.old.other_selected ≤ length self.old.ids }
        ensures added { OnOk result (AddsProject self.old self.new id.now cost selected.now) }
        ensures ids { length self.new.ids ≤ length self.old.ids + 1 }
        ensures others { self.new.other_selected ≤ length self.new.ids }
    {
        self.ids.add(alloc, id)?;
        self.costs.push(cost)?;
        if let Some(marks) = &mut self.selected {
            marks.push(selected == "1")?;
        }
        if self.columns.selected.is_some() && selected != "0" && selected != "1" {
            self.other_selected += 1;
        }
        Ok(())
    }
}
