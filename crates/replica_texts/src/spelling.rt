//! The first lines of messages: JSON without spaces, its members in the order of their names.
ghost use Rattle.std.specs.Prelude.{◌≡◌, ◌++◌, OnOk, map, codes};
ghost use Rattle.std.specs.List.{join_by};
ghost use Rattle.replica_texts.specs.Messages.{any_have_text, distrusts_part, give_header_text};
ghost use Rattle.replica_texts.specs.Messages.{quoted};
ghost use Rattle.replica_texts.specs.Inside.Spelling.{have_line_says, header_by};

use byte_lines::{push_digits, push_number};
use fed_config::ConfigId;
use receipt_core::ReceiptId;
use std::alloc::AllocError;

/// What the line of a have says, of whatever format and number of buckets.
#[derive(Clone, Copy, Debug)]
pub(crate) struct HaveLine<'a> {
    pub(crate) bucket: u64,
    pub(crate) config: ConfigId,
    pub(crate) format: u64,
    pub(crate) ids: &'a [ReceiptId],
    pub(crate) buckets: u64,
}

/// What the first line of an answer says, of whatever format and number of buckets.
#[derive(Clone, Copy, Debug)]
pub(crate) struct GiveHeaderLine {
    pub(crate) bucket: u64,
    pub(crate) config: ConfigId,
    pub(crate) count: u64,
    pub(crate) distrusts: Option<u64>,
    pub(crate) format: u64,
    pub(crate) buckets: u64,
}

pub(crate) fn push_have_line(out: &mut Vec<u8>, line: &HaveLine<'_>) -> Result<(), AllocError>
    ensures { OnOk result
        (out.new.items ≡ out.old.items ++ any_have_text (have_line_says line.now)) }
{
    out.extend_from_slice(b"{\"bucket\":")?;
    push_number(out, line.bucket)?;
    out.extend_from_slice(b",\"config\":\"")?;
    push_digits(out, &line.config.0)?;
    out.extend_from_slice(b"\",\"format\":")?;
    push_number(out, line.format)?;
    out.extend_from_slice(b",\"have\":[")?;
    push_ids(out, line.ids)?;
    out.extend_from_slice(b"],\"of\":")?;
    push_number(out, line.buckets)?;
    out.extend_from_slice(b"}")?;
    Ok(())
}

fn push_ids(out: &mut Vec<u8>, ids: &[ReceiptId]) -> Result<(), AllocError>
    ensures { OnOk result (out.new.items
        ≡ out.old.items ++ join_by quoted (codes ",") (map (λ id. id.0) ids.now)) }
{
    let Some((first, others)) = ids.split_first() else {
        return Ok(());
    };
    push_quoted(out, first)?;
    for id in others {
        out.extend_from_slice(b",")?;
        push_quoted(out, id)?;
    }
    Ok(())
}

fn push_quoted(out: &mut Vec<u8>, id: &ReceiptId) -> Result<(), AllocError>
    ensures { OnOk result (out.new.items ≡ out.old.items ++ quoted id.now.0) }
{
    out.extend_from_slice(b"\"")?;
    push_digits(out, &id.0)?;
    out.extend_from_slice(b"\"")
}

pub(crate) fn push_give_header(out: &mut Vec<u8>, header: &GiveHeaderLine) -> Result<(), AllocError>
    ensures { OnOk result
        (out.new.items ≡ out.old.items ++ give_header_text (header_by header.now)) }
{
    out.extend_from_slice(b"{\"bucket\":")?;
    push_number(out, header.bucket)?;
    out.extend_from_slice(b",\"config\":\"")?;
    push_digits(out, &header.config.0)?;
    out.extend_from_slice(b"\",\"count\":")?;
    push_number(out, header.count)?;
    push_distrusts(out, header.distrusts)?;
    out.extend_from_slice(b",\"format\":")?;
    push_number(out, header.format)?;
    out.extend_from_slice(b",\"of\":")?;
    push_number(out, header.buckets)?;
    out.extend_from_slice(b"}")?;
    Ok(())
}

fn push_distrusts(out: &mut Vec<u8>, distrusts: Option<u64>) -> Result<(), AllocError>
    ensures { OnOk result (out.new.items ≡ out.old.items ++ distrusts_part distrusts) }
{
    match distrusts {
        Some(number) => {
            out.extend_from_slice(b",\"distrusts\":")?;
            push_number(out, number)
        }
        None => Ok(()),
    }
}
