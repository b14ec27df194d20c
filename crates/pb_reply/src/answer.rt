//! Replies, the texts that are made of them, and how a text is written.
ghost use Rattle.std.specs.Prelude.{◌≡◌, ◌∷◌, ◌++◌, [], IfOk, OnOk, Some, map, string_bytes};
ghost use Rattle.pb_reply.specs.Replies.{AreJsonLines, answer_as, answer_of, text_of};
ghost use Rattle.pb_reply.specs.Replies as replies;
ghost use Rattle.pb_reply.specs.Inside.Taking as spec;
ghost use Rattle.pb_reply.specs.Writing.{Writes};
ghost use Rattle.pb_reply.specs.declared.answer.Format.TheVariants.{Json};

use crate::lines::{push_line, refusal_line};
use crate::{Fault, Status, Unanswered};
use pb_election::{Sink, put};
use pb_input::InputRefusal;
use pb_json::{Object, refusal_json};
use std::alloc::{AllocError, Global};
use std::marker::Model;

/// As what a reply is written.
#[derive(Clone, Copy, Debug, PartialEq, Eq)]
pub enum Format {
    /// As lines for people.
    Lines,
    /// As one JSON object for programs, in a line.
    Json,
    /// As that object, and behind it the lines.
    JsonAndLines,
}

/// What was found: the same as lines and as a JSON object, and how it ends.
#[derive(Drop)]
pub struct Reply {
    /// The lines, each without its end.
    pub lines: Vec<String>,
    /// The object.
    pub object: Object,
    /// How it ends.
    pub status: Status,
}

impl Model for Reply {
    ghost use Rattle.std.specs.Prelude.{map, string_bytes};
    ghost use Rattle.pb_reply.specs.Replies.{Reply};

    ghost Value = { Reply };

    ghost view = { λ r. record { lines = map string_bytes r.lines.items; json = r.object; status = r.status } };
}

impl Reply {
    /// The text of the reply in a format.
    pub fn answer_as(&self, alloc: Global, format: Format) -> Result<Answer<Status>, AllocError>
        ensures text { IfOk result (λ answer. answer ≡ answer_as format self.now) }
        ensures json { format ≡ Json → IfOk result (λ answer. AreJsonLines answer.text) }
    {
        match format {
            Format::Lines => self.answer(alloc),
            Format::Json => object_answer(alloc, &self.object, self.status),
            Format::JsonAndLines => {
                let mut text = String::new(alloc);
                push_line(&mut text, &self.object.text(alloc)?)?;
                push_lines(&mut text, &self.lines)?;
                Ok(Answer {
                    text: text.into_bytes(),
                    status: self.status,
                })
            }
        }
    }

    /// The text of the reply: each line with its end, LF.
    pub fn answer(&self, alloc: Global) -> Result<Answer<Status>, AllocError>
        ensures { IfOk result (λ answer. answer ≡ answer_of self.now) }
    {
        let mut text = String::new(alloc);
        push_lines(&mut text, &self.lines)?;
        Ok(Answer {
            text: text.into_bytes(),
            status: self.status,
        })
    }
}

/// The text of an object alone, in a line.
pub(crate) fn object_answer(
    alloc: Global,
    object: &Object,
    status: Status,
) -> Result<Answer<Status>, AllocError>
    ensures text { IfOk result (λ answer. answer ≡ record { text = text_of (object.now ∷ []); status = status }) }
    ensures json { IfOk result (λ answer. AreJsonLines answer.text) }
{
    let object = object.text(alloc)?;
    let mut text = String::new(alloc);
    push_line(&mut text, &object)?;
    Ok(Answer {
        text: text.into_bytes(),
        status,
    })
}

/// Adds lines to a text, each with its end.
pub(crate) fn push_lines(text: &mut String, lines: &[String]) -> Result<(), AllocError>
    ensures { OnOk result (string_bytes text.new ≡ string_bytes text.old ++ text_of (map string_bytes lines.now)) }
{
    for line in lines {
        push_line(text, line)?;
    }
    Ok(())
}

/// A whole text, and how it ends: with the `Status` of a command on an election, or with that of a folder.
#[derive(Drop)]
pub struct Answer<S> {
    /// The text.
    pub text: Vec<u8>,
    /// How it ends.
    pub status: S,
}

impl<S> Model for Answer<S> {
    ghost use Rattle.pb_reply.specs.Replies.{Answer};

    ghost Value = { Answer S };

    ghost view = { λ a. record { text = a.text.items; status = a.status } };
}

impl<S: Copy> Answer<S> {
    /// Writes the text, the whole of which is there, and flushes.
    pub fn write<W: Sink>(&self, out: &mut W) -> Result<S, Fault>
        ensures { Writes W.Sink (λ answer. answer ≡ self.now) result out.old out.new }
    {
        put(&self.text, out)?;
        Ok(self.status)
    }
}

/// As what a reply is told: as itself, or as a table.
pub trait FromReply: Sized + Drop {
    ghost told: { replies.Reply → Self };

    /// What is told of this reply.
    fn from_reply(alloc: Global, reply: Reply) -> Result<Self, AllocError>
        ensures { IfOk result (λ own. own ≡ told reply) };
}

/// What is told of a reply, of which the answer can be made in each format.
pub trait InFormats: FromReply {
    /// The answer in a format on the replies of which this is told.
    fn in_format(self, alloc: Global, format: Format) -> Result<Answer<Status>, AllocError>
        ensures text { (reply : replies.Reply) → self ≡ Self.FromReply.told reply → IfOk result (λ answer. answer ≡ answer_as format reply) }
        ensures json { format ≡ Json → IfOk result (λ answer. AreJsonLines answer.text) };
}

impl FromReply for Reply {
    ghost told = { λ reply. reply };

    fn from_reply(_alloc: Global, reply: Reply) -> Result<Reply, AllocError> {
        Ok(reply)
    }
}

impl InFormats for Reply {
    fn in_format(self, alloc: Global, format: Format) -> Result<Answer<Status>, AllocError> {
        self.answer_as(alloc, format)
    }
}

impl FromReply for Answer<Status> {
    ghost told = { answer_of };

    fn from_reply(alloc: Global, reply: Reply) -> Result<Answer<Status>, AllocError> {
        reply.answer(alloc)
    }
}

/// What the work on some inputs came to: its own, or what is told of the line of the input that was refused.
pub fn or_refusal<T: FromReply>(alloc: Global, work: Result<T, Unanswered>) -> Result<T, AllocError>
    ensures { IfOk result (λ own. spec.or_refusal T.told work ≡ Some own) }
{
    match work {
        Ok(own) => Ok(own),
        Err(why) => T::from_reply(alloc, reply_why(alloc, &why)?),
    }
}

/// The line of the input that was refused.
pub fn reply_why(alloc: Global, why: &Unanswered) -> Result<Reply, AllocError>
    ensures { IfOk result (λ reply. spec.reply_why why.now ≡ Some reply) }
{
    match why {
        Unanswered::Refused(refusal) => refused(alloc, *refusal),
        Unanswered::Memory => Err(AllocError {}),
    }
}

/// The reply on an input that is refused: its line, and the refusal itself as the status.
pub fn refused(alloc: Global, refusal: InputRefusal) -> Result<Reply, AllocError>
    ensures { IfOk result (λ reply. reply ≡ replies.refused refusal) }
{
    let line = refusal_line(alloc, &refusal)?;
    let object = Object::new(refusal_json(alloc, &refusal)?);
    one_line(alloc, line, object, Status::Refused(refusal))
}

/// A reply of one line, and of the same as a JSON object.
pub fn one_line(
    alloc: Global,
    line: String,
    object: Object,
    status: Status,
) -> Result<Reply, AllocError>
    ensures { IfOk result (λ reply. reply ≡ record { lines = string_bytes line ∷ []; json = object; status = status }) }
{
    let mut lines = Vec::new(alloc);
    lines.push(line)?;
    Ok(Reply {
        lines,
        object,
        status,
    })
}
