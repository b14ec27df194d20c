//! Which group is told of an election.

ghost use Rattle.std.specs.Prelude.{◌≡◌, All, IfSome};
ghost use Rattle.pb_cohesion.specs.Shown as spec;
ghost use Rattle.pb_cohesion.specs.Shown.{AreSmall};

use crate::{GroupFigures, GroupsVerdict};

/// The figures of one project: of the first for which a group falls short, or where none does, of the one whose group's
/// share covers most of what it has to come to, and of several such the first. The figures are to be those of
/// `group_figures`.
pub fn shown_of(figures: &[GroupFigures]) -> Option<GroupFigures>
    requires { All AreSmall figures.now }
    ensures { result ≡ spec.shown figures.now }
{
    match first_short(figures) {
        Some(first) => Some(first),
        None => closest(figures),
    }
}

/// The figures of the first project for which a group falls short.
pub fn first_short(figures: &[GroupFigures]) -> Option<GroupFigures>
    ensures { result ≡ spec.first_short figures.now }
{
    for project in figures {
        if project.falls_short {
            return Some(*project);
        }
    }
    None
}

// The first whose group is the closest of all.
fn closest(figures: &[GroupFigures]) -> Option<GroupFigures>
    requires { All AreSmall figures.now }
    ensures { result ≡ spec.closest figures.now }
{
    let mut closest = None;
    for project in figures {
        closest = closer(closest, project);
    }
    closest
}

// Of two, the later only where the earlier is not as close.
fn closer(earlier: Option<GroupFigures>, later: &GroupFigures) -> Option<GroupFigures>
    requires earlier { IfSome earlier AreSmall }
    requires later { AreSmall later.now }
    ensures closer { result ≡ spec.closer earlier later.now }
    ensures small { IfSome result AreSmall }
{
    match earlier {
        Some(earlier) if earlier.is_as_close(later) => Some(earlier),
        _ => Some(*later),
    }
}

impl GroupFigures {
    // Whether the share of its group covers no less of what it has to come to than that of another.
    fn is_as_close(&self, other: &GroupFigures) -> bool
        requires this { AreSmall self.now }
        requires other { AreSmall other.now }
        ensures { result ≡ spec.is_as_close self.now other.now }
    {
        u128::from(other.voters) * self.need <= u128::from(self.voters) * other.need
    }
}

impl GroupsVerdict {
    /// The verdict, by the figures of the first project for which a group falls short, where there is one.
    pub fn by(first: Option<GroupFigures>) -> GroupsVerdict
        ensures { result ≡ spec.verdict_by first }
    {
        match first {
            None => GroupsVerdict::Satisfied,
            Some(first) => GroupsVerdict::Failed {
                project: first.project,
                voters: first.voters,
            },
        }
    }
}
