//! The texts of templates.
use crate::error::ScriptError;
use crate::script::Script;
use std::alloc::{AllocError, Global};

impl Script {
    /// The text of a template.
    ///
    /// # Errors
    /// It names an unknown text or has none of the forms, or memory ran out.
    pub fn expand(&self, template: &str) -> Result<Vec<u8>, ScriptError> {
        let mut text = Vec::new(self.alloc);
        self.append(template, &mut text)?;
        Ok(text)
    }

    fn append(&self, template: &str, text: &mut Vec<u8>) -> Result<(), ScriptError> {
        let Some((literal, calls)) = template.split_once("${") else {
            return Ok(text.extend_from_slice(template.as_bytes())?);
        };
        text.extend_from_slice(literal.as_bytes())?;
        for call in calls.split("${") {
            self.append_call(call, text)?;
        }
        Ok(())
    }

    // Appends what comes after a `${`, up to the next one.
    fn append_call(&self, piece: &str, text: &mut Vec<u8>) -> Result<(), ScriptError> {
        let Some((call, literal)) = piece.split_once('}') else {
            return Err(ScriptError::BadTemplate);
        };
        self.append_called(call, text)?;
        Ok(text.extend_from_slice(literal.as_bytes())?)
    }

    fn append_called(&self, call: &str, text: &mut Vec<u8>) -> Result<(), ScriptError> {
        if call == "lf" {
            return Ok(text.extend_from_slice(b"\n")?);
        }
        if let Some((name, count)) = call.split_once('*') {
            return append_copies(self.named(name)?, read_number(count)?, text);
        }
        match call.split_once(' ') {
            Some(("hex", digits)) => append_bytes(self.alloc, digits, text),
            Some((name, range)) => append_range(self.alloc, self.named(name)?, range, text),
            None => Ok(text.extend_from_slice(self.named(call)?)?),
        }
    }

    fn named(&self, name: &str) -> Result<&[u8], ScriptError> {
        self.text(name).ok_or(ScriptError::UnknownText)
    }
}

fn append_copies(part: &[u8], count: u64, text: &mut Vec<u8>) -> Result<(), ScriptError> {
    for _ in 0..count {
        text.extend_from_slice(part)?;
    }
    Ok(())
}

fn append_bytes(alloc: Global, digits: &str, text: &mut Vec<u8>) -> Result<(), ScriptError> {
    match hex::decode(alloc, digits) {
        Ok(bytes) => Ok(text.extend_from_slice(bytes.as_slice())?),
        Err(_) => Err(ScriptError::BadTemplate),
    }
}

fn append_range(
    alloc: Global,
    part: &[u8],
    range: &str,
    text: &mut Vec<u8>,
) -> Result<(), ScriptError> {
    let Some((first, last)) = range.split_once("..") else {
        return Err(ScriptError::BadTemplate);
    };
    for number in read_number(first)?..=read_number(last)? {
        append_numbered(alloc, part, number, text)?;
    }
    Ok(())
}

fn append_numbered(
    alloc: Global,
    part: &[u8],
    number: u64,
    text: &mut Vec<u8>,
) -> Result<(), AllocError> {
    let digits = number.to_string(alloc)?;
    for byte in part {
        match *byte {
            b'%' => text.extend_from_slice(digits.as_bytes())?,
            other => text.push(other)?,
        }
    }
    Ok(())
}

fn read_number(digits: &str) -> Result<u64, ScriptError> {
    digits.parse::<u64>().map_err(|_| ScriptError::BadTemplate)
}
