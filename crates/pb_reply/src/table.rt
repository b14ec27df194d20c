//! Tables, which are for programs as they are, with the same as an object.
ghost use Rattle.pb_reply.specs.Replies.{as_table};

use crate::Status;
use crate::answer::{Answer, Format, FromReply, InFormats, Reply, object_answer};
use pb_json::Object;
use std::alloc::{AllocError, Global};
use std::marker::Model;

/// A table as it is printed, the same as an object, and how it ends.
#[derive(Drop)]
pub struct Table {
    /// The lines, each with its end.
    pub text: Vec<u8>,
    /// The object.
    pub object: Object,
    /// How it ends.
    pub status: Status,
}

impl Model for Table {
    ghost use Rattle.pb_reply.specs.Replies.{TableText};

    ghost Value = { TableText };

    ghost view = { λ t. record { text = t.text.items; json = t.object; status = t.status } };
}

impl FromReply for Table {
    ghost told = { as_table };

    fn from_reply(alloc: Global, reply: Reply) -> Result<Table, AllocError> {
        let lines = reply.answer(alloc)?;
        Ok(Table {
            text: lines.text,
            object: reply.object,
            status: reply.status,
        })
    }
}

impl InFormats for Table {
    fn in_format(self, alloc: Global, format: Format) -> Result<Answer<Status>, AllocError> {
        match format {
            Format::Lines => Ok(Answer {
                text: self.text,
                status: self.status,
            }),
            Format::Json => object_answer(alloc, &self.object, self.status),
            Format::JsonAndLines => {
                let mut answer = object_answer(alloc, &self.object, self.status)?;
                answer.text.extend_from_slice(&self.text)?;
                Ok(answer)
            }
        }
    }
}
