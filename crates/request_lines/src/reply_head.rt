//! The first line of a reply: how many bytes of each stream follow, and the exit status.
ghost use Rattle.std.specs.Prelude.{◌≡◌, IfOk, MatchResult, Some, string_bytes};
ghost use Rattle.serde_json.specs.Read.{read};
ghost use Rattle.serde_json.specs.View.{view};
ghost use Rattle.jwk_set.specs.Forms.{FindsMember};
ghost use Rattle.request_lines.specs.RequestLines.{IsOfReply, IsReplyLine, RefusesLine};
ghost use Rattle.request_lines.specs.RequestLines.{SaysReply, number_in, reply_line};
ghost use Rattle.request_lines.specs.RequestLines.{reply_value};

use crate::request_error::RequestError;
use crate::request_words::read_value;
use serde_json::{Value, json};
use std::alloc::{AllocError, Global};

/// What a reply's first line says.
#[derive(Clone, Copy, Debug, PartialEq, Eq)]
pub struct ReplyHead {
    /// How many bytes of standard error come last.
    pub errors: u64,
    /// How many bytes of standard output come next.
    pub output: u64,
    /// The exit status.
    pub status: u8,
}

/// The first line of a reply, without its line feed.
///
/// # Errors
/// Memory ran out.
pub fn write_reply_head(alloc: Global, head: ReplyHead) -> Result<String, AllocError>
    ensures text { IfOk result (λ s. string_bytes s ≡ reply_line head) }
    ensures read_back { IfOk result (λ s. read (string_bytes s) ≡ Some (reply_value head)) }
{
    let text = value_of(alloc, head)?.to_string(alloc)?;
    Ok(text)
}

fn value_of(alloc: Global, head: ReplyHead) -> Result<Value, AllocError>
    ensures { IfOk result (λ value. view value ≡ reply_value head) }
{
    json!(in alloc; {"errors": head.errors, "output": head.output, "status": head.status})
}

/// What a reply's first line says: a JSON object whose members `errors` and `output` are numbers
/// below 2^64, and whose member `status` is one below 256. The line feed after it is not part of
/// the line.
///
/// # Errors
/// - [`RequestError::TooLong`]: the line has more than 65,536 bytes,
/// - [`RequestError::BadLine`]: it says something else,
/// - [`RequestError::NoMemory`]: memory ran out.
pub fn read_reply_head(alloc: Global, line: &[u8]) -> Result<ReplyHead, RequestError>
    ensures { MatchResult result (IsReplyLine line.now) (RefusesLine IsOfReply line.now) }
{
    match reply_of(&read_value(alloc, line)?) {
        Some(head) => Ok(head),
        None => Err(RequestError::BadLine),
    }
}

fn reply_of(value: &Value) -> Option<ReplyHead>
    ensures { FindsMember result (SaysReply (view value.now)) }
{
    let errors = number_of(value, "errors")?;
    let output = number_of(value, "output")?;
    let status = u8::try_from(number_of(value, "status")?).ok()?;
    Some(ReplyHead {
        errors,
        output,
        status,
    })
}

fn number_of(value: &Value, name: &str) -> Option<u64>
    ensures { result ≡ number_in name.now (view value.now) }
{
    value.get(name).and_then(Value::as_u64)
}
