//! The elections and the certificates of a folder.
ghost use Rattle.std.specs.Prelude.{◌≡◌, IfOk};
ghost use Rattle.std.specs.BTreeSet.{contains_text};
ghost use Rattle.pb_run.specs.Listings.{IsListingOf};

use crate::listed::Listed;
use crate::names::{has_name, names_with};
use pb_audit::endings::{ELECTION, PRICES, VIOLATION};
use pb_audit::names::is_clean;
use pb_visible::is_hidden;
use std::alloc::{AllocError, Global};
use std::collections::BTreeSet;

/// The elections and the certificates of a folder, by their names without these endings, in byte order; and the names,
/// with their endings, of what may be meant to be one of them and isn't.
#[derive(Drop)]
pub struct Listing {
    elections: BTreeSet<String>,
    prices: BTreeSet<String>,
    violations: BTreeSet<String>,
    aside: Aside,
}

/// What isn't audited.
#[derive(Drop)]
struct Aside {
    refutations: Vec<String>,
    /// Files whose endings are right but for small and capital letters, and certificates without a name.
    misnamed: Vec<String>,
    /// Files whose endings are right, with a control character in their names.
    unclean: Vec<String>,
    /// Links, folders, pipes and the like, with names by which a file would stand in one of these lists.
    irregular: Vec<String>,
}

/// Why a name is set aside.
#[derive(Clone, Copy)]
enum Why {
    Refutation,
    Misnamed,
    Unclean,
    /// It is audited, if it is a regular file.
    Regular,
}

/// How the name of a refutation ends, `NAME.refutation.csv`. Those of a folder aren't audited.
const REFUTATION: &str = ".refutation.csv";

/// How the names end of what is audited.
const ENDINGS: [&str; 3] = [ELECTION, PRICES, VIOLATION];

impl Listing {
    /// What a folder has that lists this.
    pub fn of(alloc: Global, listed: &[Listed]) -> Result<Listing, AllocError>
        ensures { IfOk result (IsListingOf listed.now) }
    {
        Ok(Listing {
            elections: names_with(alloc, listed, ELECTION)?,
            prices: names_with(alloc, listed, PRICES)?,
            violations: names_with(alloc, listed, VIOLATION)?,
            aside: aside_of(alloc, listed)?,
        })
    }

    /// The names of the elections, in byte order.
    pub fn elections(&self) -> &BTreeSet<String>
        ensures { result.now ≡ (self.now).elections }
    {
        &self.elections
    }

    /// Whether a price certificate lies beside the election of this name.
    pub fn has_prices(&self, name: &str) -> bool
        ensures { result ≡ contains_text (self.now).prices name.now }
    {
        has_name(&self.prices, name)
    }

    /// Whether a violation certificate lies beside the election of this name.
    pub fn has_violation(&self, name: &str) -> bool
        ensures { result ≡ contains_text (self.now).violations name.now }
    {
        has_name(&self.violations, name)
    }

    /// Whether there are refutations, which aren't audited.
    pub fn has_refutations(&self) -> bool {
        !self.aside.refutations.is_empty()
    }

    /// The names, in byte order, of files whose endings are right, with a control character in each.
    pub fn unclean(&self) -> &[String] {
        &self.aside.unclean
    }

    /// The names, in byte order, of links, folders, pipes and the like by which a file would be audited or overlooked.
    pub fn irregular(&self) -> &[String] {
        &self.aside.irregular
    }

    /// The names, with their endings and in byte order, of the elections in whose names are characters that can't be
    /// seen.
    pub fn unseen(&self, alloc: Global) -> Result<Vec<String>, AllocError> {
        let mut names = Vec::new(alloc);
        for name in &self.elections {
            if name.chars().any(|c| is_hidden(c)) {
                names.push(format!(in alloc; "{name}{ELECTION}")?)?;
            }
        }
        Ok(names)
    }

    /// The names, with their endings and in byte order, of the files that may be meant to be audited and aren't: those
    /// whose endings are right but for small and capital letters, certificates without a name, as `prices.csv`,
    /// certificates beside which there is no election, and refutations.
    /// One whose name begins with that of an election and a point, as `town.stable.prices.csv` beside `town.pb`, is
    /// taken for another one that was put there on purpose.
    pub fn overlooked(&self, alloc: Global) -> Result<Vec<String>, AllocError> {
        let mut names = Vec::new(alloc);
        for others in [&self.aside.misnamed, &self.aside.refutations] {
            for name in others {
                names.push(name.clone()?)?;
            }
        }
        self.push_lonely(alloc, &mut names, &self.prices, PRICES)?;
        self.push_lonely(alloc, &mut names, &self.violations, VIOLATION)?;
        names.sort_unstable();
        Ok(names)
    }

    /// Adds the names of the certificates beside which there is no election.
    fn push_lonely(
        &self,
        alloc: Global,
        names: &mut Vec<String>,
        certificates: &BTreeSet<String>,
        ending: &str,
    ) -> Result<(), AllocError> {
        for name in certificates {
            if !self.has_election_of(name) {
                names.push(format!(in alloc; "{name}{ending}")?)?;
            }
        }
        Ok(())
    }

    /// Whether an election has this name, or the front of it before a point.
    fn has_election_of(&self, name: &str) -> bool {
        let mut front = name;
        for _ in 0..=name.len() {
            if has_name(&self.elections, front) {
                return true;
            }
            match front.rsplit_once('.') {
                Some((rest, _)) => front = rest,
                None => return false,
            }
        }
        false
    }
}

/// What a folder lists that isn't audited, in byte order.
fn aside_of(alloc: Global, listed: &[Listed]) -> Result<Aside, AllocError> {
    let mut aside = Aside {
        refutations: Vec::new(alloc),
        misnamed: Vec::new(alloc),
        unclean: Vec::new(alloc),
        irregular: Vec::new(alloc),
    };
    for entry in listed {
        aside.take(alloc, entry)?;
    }
    aside.unclean.sort_unstable();
    aside.irregular.sort_unstable();
    Ok(aside)
}

impl Aside {
    /// Takes a name, where it isn't that of what is audited.
    fn take(&mut self, alloc: Global, entry: &Listed) -> Result<(), AllocError> {
        let Some(why) = why_aside(&entry.name) else {
            return Ok(());
        };
        let names = match why {
            _ if !entry.is_file => &mut self.irregular,
            Why::Regular => return Ok(()),
            Why::Refutation => &mut self.refutations,
            Why::Misnamed => &mut self.misnamed,
            Why::Unclean => &mut self.unclean,
        };
        names.push(String::from_str(alloc, &entry.name)?)?;
        Ok(())
    }
}

/// Why a name would be set aside; nothing where it isn't like those that are audited.
fn why_aside(file_name: &str) -> Option<Why> {
    for ending in ENDINGS {
        if let Some(name) = file_name.strip_suffix(ending) {
            return match name {
                "" => None,
                _ if !is_clean(name) => Some(Why::Unclean),
                _ => Some(Why::Regular),
            };
        }
    }
    if is_like(file_name, REFUTATION) {
        Some(Why::Refutation)
    } else if is_misnamed(file_name) {
        Some(Why::Misnamed)
    } else {
        None
    }
}

/// Whether a file's name has one of the endings but for small and capital letters, or is that of a certificate without
/// the name of an election.
fn is_misnamed(file_name: &str) -> bool {
    has_ending(file_name, ELECTION) || is_like(file_name, PRICES) || is_like(file_name, VIOLATION)
}

/// Whether a file's name has this ending but for small and capital letters, or is the ending without its point.
fn is_like(file_name: &str, ending: &str) -> bool {
    has_ending(file_name, ending) || is_bare(file_name, ending)
}

/// Whether a file's name has this ending, but for small and capital letters, behind something else.
fn has_ending(file_name: &str, ending: &str) -> bool {
    let name = file_name.as_bytes();
    let front = name.len().saturating_sub(ending.len());
    front > 0 && name[front..].eq_ignore_ascii_case(ending.as_bytes())
}

/// Whether a file's name is an ending without its point.
fn is_bare(file_name: &str, ending: &str) -> bool {
    ending
        .strip_prefix('.')
        .is_some_and(|bare| bare == file_name)
}
