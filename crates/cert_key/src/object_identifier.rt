//! Object identifiers as numbers with dots between them (X.690, 8.19).
ghost use Rattle.std.specs.Prelude.{◌≡◌, ◌++◌, [], decimal, flat_map, IfOk, OnOk, string_bytes};
ghost use Rattle.cert_key.specs.Inside.Reading.{IsReadAs};
ghost use Rattle.cert_key.specs.Name.{dotted, dotted_numbers, first_arcs, later_arc, numbers_from};

use itoa::Buffer;
use std::alloc::{AllocError, Global};

/// A number of more bits is not read.
const MORE_BITS: u64 = 1 << 56;

/// The text of the object identifier of which these bytes are the content, and `None` if they are
/// not of its form or a number is 2^63 or more.
#[tactic(auto, unfolding(crate::specs::Name::dotted))]
pub(crate) fn dotted(alloc: Global, content: &[u8]) -> Result<Option<String>, AllocError>
    ensures { IfOk result (λ text. IsReadAs string_bytes text (dotted content.now)) }
{
    match numbers(alloc, content)? {
        Some(numbers) => dotted_numbers(alloc, numbers.as_slice()),
        None => Ok(None),
    }
}

fn numbers(alloc: Global, content: &[u8]) -> Result<Option<Vec<u64>>, AllocError>
    ensures { IfOk result (λ numbers. IsReadAs (λ n. n.items) numbers
        (numbers_from [] 0 content.now)) }
{
    let mut numbers = Vec::new(alloc);
    let mut value = 0;
    let mut rest = content;
    'bytes: while let [byte, others @ ..] = rest {
        if *byte < 128 {
            numbers.push(value * 128 + u64::from(*byte))?;
            value = 0;
        } else {
            value = value * 128 + u64::from(*byte - 128);
            if value == 0 || value >= MORE_BITS {
                return Ok(None);
            }
        }
        rest = others;
    }
    if value == 0 {
        Ok(Some(numbers))
    } else {
        Ok(None)
    }
}

fn dotted_numbers(alloc: Global, numbers: &[u64]) -> Result<Option<String>, AllocError>
    ensures { IfOk result (λ text. IsReadAs string_bytes text (dotted_numbers numbers.now)) }
{
    match numbers {
        [first, others @ ..] => Ok(Some(arcs_text(alloc, *first, others)?)),
        [] => Ok(None),
    }
}

fn arcs_text(alloc: Global, first: u64, others: &[u64]) -> Result<String, AllocError>
    ensures { IfOk result (λ text. string_bytes text
        ≡ first_arcs first ++ flat_map later_arc others.now) }
{
    let mut text = String::new(alloc);
    push_first_arcs(&mut text, first)?;
    push_later_arcs(&mut text, others)?;
    Ok(text)
}

// The first number is of two arcs.
fn push_first_arcs(text: &mut String, number: u64) -> Result<(), AllocError>
    ensures { OnOk result (string_bytes text.new ≡ string_bytes text.old ++ first_arcs number) }
{
    if number < 40 {
        push_arc(text, "0.", number)
    } else if number < 80 {
        push_arc(text, "1.", number - 40)
    } else {
        push_arc(text, "2.", number - 80)
    }
}

fn push_later_arcs(text: &mut String, numbers: &[u64]) -> Result<(), AllocError>
    ensures { OnOk result (string_bytes text.new
        ≡ string_bytes text.old ++ flat_map later_arc numbers.now) }
{
    for number in numbers {
        push_arc(text, ".", *number)?;
    }
    Ok(())
}

fn push_arc(text: &mut String, before: &str, number: u64) -> Result<(), AllocError>
    ensures { OnOk result (string_bytes text.new
        ≡ string_bytes text.old ++ (before.now ++ decimal number)) }
{
    let mut buffer = Buffer::new();
    text.push_str(before)?;
    text.push_str(buffer.format(number))
}
