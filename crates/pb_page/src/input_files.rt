//! What a page shows of its files, and the files as they are taken.
ghost use Rattle.std.specs.Prelude.{◌≡◌, ◌∷◌, ◌++◌, Err, IfErr, IfOk, map, option_map, option_to_list};
ghost use Rattle.pb_election.specs.Instance.{Instance};
ghost use Rattle.pb_reply.specs.Inputs.{StatesElection};
ghost use Rattle.pb_reply.specs.Inside.Loaded.{lent};
ghost use Rattle.pb_reply.specs.Inside.Taking.{Gives, IfTaken};
ghost use Rattle.pb_reply.specs.Turns.{DeliversFile, turn};
ghost use Rattle.pb_page.specs.Sums.{bytes_of, sum_text, sums_of};
ghost use Rattle.pb_page.specs.Taken as spec;
ghost use Rattle.pb_page.specs.Taken.{GivesElection, sums_shown};

use crate::digest::sum_of;
use crate::entry::PageNames;
use pb_case::{InputFile, Labels, PageFiles, labels_of};
use pb_election::Election;
use pb_reply::{AsFile, File, Given, Unanswered, election_of};
use pb_visible::visible;
use std::alloc::{AllocError, Global};

/// An election that was taken, and what the page shows of its file.
#[derive(Drop)]
pub(crate) struct ElectionTaken {
    pub(crate) election: Election,
    pub(crate) shown: ElectionFile,
}

/// What the page shows of an election's file: what it says of itself, and its name and sum.
#[derive(Drop)]
pub(crate) struct ElectionFile {
    pub(crate) labels: Labels,
    pub(crate) file: InputFile,
}

/// Takes an election. The bytes of its file are let go.
pub(crate) fn take_election<E: Given>(
    alloc: Global,
    name: &[u8],
    input: &mut E,
) -> Result<ElectionTaken, Unanswered>
    ensures given { IfOk result (λ taken. GivesElection (turn E.delivers input.old input.new) taken.election (spec.sum_of taken.shown.file)) }
    ensures unanswered { IfErr result (λ why. IfTaken {A = Instance} (Err why) (Gives StatesElection (turn E.delivers input.old input.new))) }
{
    let taken = input.take(alloc)?;
    Ok(ElectionTaken {
        election: election_of(alloc, taken.as_file())?,
        shown: ElectionFile {
            labels: its_labels(alloc, taken.as_file())?,
            file: input_file(alloc, name, taken.as_file())?,
        },
    })
}

/// What an election's file says of itself.
fn its_labels(alloc: Global, election: File<'_>) -> Result<Labels, AllocError> {
    match election {
        File::Bytes(bytes) => labels_of(alloc, bytes),
        File::Unread | File::TooLong => labels_of(alloc, &[]),
    }
}

/// Takes a file, where one is given.
pub(crate) fn take_file<G: Given>(
    alloc: Global,
    input: &mut Option<G>,
) -> Result<Option<G::Taken>, AllocError>
    ensures { IfOk result (λ taken. DeliversFile G.delivers input.old input.new (option_map G.Taken.delivery taken)) }
{
    match input {
        Some(input) => Ok(Some(input.take(alloc)?)),
        None => Ok(None),
    }
}

/// The file, its bytes lent, where one was taken.
pub(crate) fn file_given<T: AsFile>(taken: &Option<T>) -> Option<File<'_>>
    ensures { option_map lent result ≡ option_map T.delivery taken.now }
{
    match taken {
        Some(taken) => Some(taken.as_file()),
        None => None,
    }
}

/// What is shown of the files, that of the election among them.
pub(crate) fn input_files(
    alloc: Global,
    names: PageNames<'_>,
    election: InputFile,
    outcome: Option<File<'_>>,
    certificate: Option<File<'_>>,
) -> Result<PageFiles, AllocError>
    ensures { IfOk result (λ shown. sums_shown shown ≡ spec.sum_of election ∷ sums_of (option_to_list (option_map lent outcome.entry) ++ option_to_list (option_map lent certificate.entry))) }
{
    Ok(PageFiles {
        election,
        outcome: given_input(alloc, names.outcome, outcome)?,
        certificate: given_input(alloc, names.certificate, certificate)?,
    })
}

/// What is shown of a file, where one is given.
fn given_input(
    alloc: Global,
    name: &[u8],
    file: Option<File<'_>>,
) -> Result<Option<InputFile>, AllocError>
    ensures { IfOk result (λ shown. map spec.sum_of (option_to_list shown) ≡ sums_of (option_to_list (option_map lent file.entry))) }
{
    match file {
        Some(file) => Ok(Some(input_file(alloc, name, file)?)),
        None => Ok(None),
    }
}

/// What is shown of a file.
fn input_file(alloc: Global, name: &[u8], file: File<'_>) -> Result<InputFile, AllocError>
    ensures { IfOk result (λ shown. spec.sum_of shown ≡ sum_text (bytes_of (lent file.entry))) }
{
    let bytes = match file {
        File::Bytes(bytes) => bytes,
        File::Unread | File::TooLong => &[],
    };
    let shown = visible(alloc, name)?;
    Ok(InputFile {
        is_exact: shown.as_bytes() == name,
        name: shown,
        length: bytes.len(),
        sum: sum_of(alloc, bytes)?,
    })
}
