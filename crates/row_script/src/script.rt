//! The lines of a script, and the texts that they define.
use crate::error::ScriptError;
use std::alloc::{AllocError, Global};

/// The texts that the lines of a script defined so far.
#[derive(Drop)]
pub struct Script {
    pub(crate) alloc: Global,
    texts: Vec<NamedText>,
}

#[derive(Drop)]
struct NamedText {
    name: String,
    text: Vec<u8>,
}

/// A row of a script.
#[derive(Drop)]
pub struct Row<'a> {
    /// The line as it is in the script.
    pub line: &'a str,
    /// Its head up to the first space.
    pub verb: &'a str,
    /// The rest of its head, after the first space.
    pub words: &'a str,
    /// The text of its template, or nothing if it has none.
    pub text: Vec<u8>,
}

impl Script {
    /// A script of which no line was read.
    pub fn new(alloc: Global) -> Script {
        Script {
            alloc,
            texts: Vec::new(alloc),
        }
    }

    /// Takes the next line, without its line feed: nothing for an empty line, a comment or a
    /// definition, which is kept, otherwise the row.
    ///
    /// # Errors
    /// The template names an unknown text or has none of the forms, a definition repeats a name, or
    /// memory ran out. No text is defined then.
    pub fn read<'a>(&mut self, line: &'a str) -> Result<Option<Row<'a>>, ScriptError> {
        if line.is_empty() || line.starts_with('#') {
            return Ok(None);
        }
        let (head, template) = split_line(line);
        let (verb, words) = split_word(head);
        if verb == "text" {
            self.define(words, template)?;
            return Ok(None);
        }
        let text = self.expand(template)?;
        Ok(Some(Row {
            line,
            verb,
            words,
            text,
        }))
    }

    /// The text of this name.
    pub fn text(&self, name: &str) -> Option<&[u8]> {
        for named in self.texts.as_slice() {
            if named.name.as_str() == name {
                return Some(named.text.as_slice());
            }
        }
        None
    }

    /// The first name that was given to this text.
    pub fn name_of(&self, text: &[u8]) -> Option<&str> {
        for named in self.texts.as_slice() {
            if named.text.as_slice() == text {
                return Some(named.name.as_str());
            }
        }
        None
    }

    fn define(&mut self, name: &str, template: &str) -> Result<(), ScriptError> {
        if self.text(name).is_some() {
            return Err(ScriptError::BadTemplate);
        }
        let text = self.expand(template)?;
        self.keep(name, text)?;
        Ok(())
    }

    fn keep(&mut self, name: &str, text: Vec<u8>) -> Result<(), AllocError> {
        let name = String::from_str(self.alloc, name)?;
        self.texts.push(NamedText { name, text })?;
        Ok(())
    }
}

// The head and the template of a line, which may have none.
fn split_line(line: &str) -> (&str, &str) {
    match line.split_once(" = ") {
        Some(halves) => halves,
        None => (line.strip_suffix(" =").unwrap_or(line), ""),
    }
}

// What comes before the first space, and what comes after it.
fn split_word(head: &str) -> (&str, &str) {
    head.split_once(' ').unwrap_or((head, ""))
}
