//! The arguments of a request, as a JSON array.
ghost use Rattle.std.specs.Prelude.{◌≡◌, ◌≤◌, ⊤, IfOk, Some, MatchResult, length, map};
ghost use Rattle.std.specs.Prelude.{string_bytes};
ghost use Rattle.serde_json.specs.Data.{string};
ghost use Rattle.serde_json.specs.Read.{read};
ghost use Rattle.serde_json.specs.View.{view};
ghost use Rattle.serde_json.specs.Written.{compact_text};
ghost use Rattle.jwk_set.specs.Json.{IsJson};
ghost use Rattle.request_lines.specs.RequestLines.{IsOfWords, RefusesLine, RefusesValue};
ghost use Rattle.request_lines.specs.RequestLines.{SaysWords, request_limit, words_value};

use crate::request_error::RequestError;
use serde_json::Value;
use std::alloc::{AllocError, Global};
use std::str;

/// The most bytes of a request's first line, without its line feed.
pub const MOST_WORDS: usize = 65_536;

/// The arguments of a request, out of their JSON text: an array of texts, of at most 65,536 bytes.
///
/// # Errors
/// - [`RequestError::TooLong`]: the text has more than 65,536 bytes,
/// - [`RequestError::BadLine`]: it is not a JSON array of texts,
/// - [`RequestError::NoMemory`]: memory ran out.
pub fn read_request_words(alloc: Global, line: &[u8]) -> Result<Vec<String>, RequestError>
    ensures { MatchResult result
        (λ words. SaysWords line.now (map string_bytes words.items))
        (RefusesLine IsOfWords line.now) }
{
    words_of(alloc, &read_value(alloc, line)?)
}

/// The JSON text of these arguments. A first line that is this text says that the input ends with
/// the stream.
///
/// # Errors
/// Memory ran out.
pub fn write_request_words(alloc: Global, words: &[&str]) -> Result<String, AllocError>
    ensures text { IfOk result
        (λ s. string_bytes s ≡ compact_text (words_value (map (λ w. w.now) words.now))) }
    ensures read_back { IfOk result
        (λ s. read (string_bytes s) ≡ Some (words_value (map (λ w. w.now) words.now))) }
{
    let text = value_of_words(alloc, words)?.to_string(alloc)?;
    Ok(text)
}

/// The value of a first line.
pub(crate) fn read_value(alloc: Global, line: &[u8]) -> Result<Value, RequestError>
    ensures { MatchResult result
        (λ value. (length line.now ≤ request_limit) × IsJson line.now (view value))
        (RefusesLine (λ _. ⊤) line.now) }
{
    if line.len() > MOST_WORDS {
        return Err(RequestError::TooLong);
    }
    let Ok(text) = str::from_utf8(line) else {
        return Err(RequestError::BadLine);
    };
    match Value::from_str(alloc, text) {
        Ok(value) => Ok(value),
        Err(error) if error.is_memory() => Err(RequestError::NoMemory),
        Err(_) => Err(RequestError::BadLine),
    }
}

// The arguments, if the value is an array of texts.
fn words_of(alloc: Global, value: &Value) -> Result<Vec<String>, RequestError>
    ensures { MatchResult result
        (λ words. view value.now ≡ words_value (map string_bytes words.items))
        (RefusesValue IsOfWords (view value.now)) }
{
    let Some(items) = value.as_array() else {
        return Err(RequestError::BadLine);
    };
    let mut words = Vec::new(alloc);
    'items: for item in items {
        let Some(word) = item.as_str() else {
            return Err(RequestError::BadLine);
        };
        words.push(String::from_str(alloc, word)?)?;
    }
    Ok(words)
}

fn value_of_words(alloc: Global, words: &[&str]) -> Result<Value, AllocError>
    ensures { IfOk result (λ value. view value ≡ words_value (map (λ w. w.now) words.now)) }
{
    Ok(Value::Array(values_of(alloc, words)?))
}

fn values_of(alloc: Global, words: &[&str]) -> Result<Vec<Value>, AllocError>
    ensures { IfOk result
        (λ values. map view values.items ≡ map string (map (λ w. w.now) words.now)) }
{
    let mut values = Vec::with_capacity(alloc, words.len())?;
    'words: for word in words {
        values.push(Value::String(String::from_str(alloc, word)?))?;
    }
    Ok(values)
}
