//! What a command hands back to be told. Its text is whole before it is written, so that short memory writes nothing.
ghost use Rattle.kn_tool.specs.Replies.{IsPlain, IsShortMemory};

use crate::Answer;
use crate::answer::text_of;
use std::alloc::Global;

/// What is to be told of a command.
#[derive(Debug, Drop)]
pub enum Reply {
    /// An answer, whose text is written first.
    Text { answer: Answer, text: Vec<u8> },
    /// The line that says how the program is called.
    Usage,
    /// An answer that has no text: nothing is written.
    Silent { answer: Answer },
}

/// The reply of an answer that has a text of its own.
pub fn reply_of(alloc: Global, answer: Answer) -> Reply
    ensures { IsPlain answer result }
{
    match text_of(alloc, &answer) {
        Ok(text) => Reply::Text { answer, text },
        Err(_) => short_memory(),
    }
}

/// The reply where memory is short.
pub fn short_memory() -> Reply
    ensures { IsShortMemory result }
{
    Reply::Silent {
        answer: Answer::NoMemory,
    }
}
