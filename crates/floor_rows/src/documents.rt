//! Documents: read from texts and values, and what they answer.
use crate::words::{add_line, print_out, yes};
use bundle_doc::Document;
use hex::FromHex;
use jwk_set::KeyId;
use row_script::{Answers, Script};
use serde_json::Value;
use spiffe_name::TrustDomain;
use std::alloc::{AllocError, Global};

/// Reports the document of the domain that the bytes say, or why they are not one.
pub(crate) fn read(
    alloc: Global,
    script: &Script,
    domain: &str,
    bytes: &[u8],
    answer: &mut String,
) -> Result<(), AllocError> {
    match Document::read(alloc, bytes) {
        Ok(document) => print_of_domain(alloc, script, domain, &document, answer),
        Err(error) => print_out(&error, answer),
    }
}

/// Reports the document that the bytes are the canonical text of, or that they are left to the
/// reader of any text.
pub(crate) fn read_directly(
    alloc: Global,
    script: &Script,
    domain: &str,
    bytes: &[u8],
    answer: &mut String,
) -> Result<(), AllocError> {
    match Document::read_canonical(alloc, bytes)? {
        Some(document) => print_of_domain(alloc, script, domain, &document, answer),
        None => answer.push_str("left\n"),
    }
}

/// Reports the document that a JSON value says, or why it is not one.
pub(crate) fn read_value(
    alloc: Global,
    script: &Script,
    domain: &str,
    bytes: &[u8],
    answer: &mut String,
) -> Result<(), AllocError> {
    match Value::from_slice(alloc, bytes) {
        Ok(value) => print_of_value(alloc, script, domain, &value, answer),
        Err(_) => answer.push_str("no JSON\n"),
    }
}

fn print_of_value(
    alloc: Global,
    script: &Script,
    domain: &str,
    value: &Value,
    answer: &mut String,
) -> Result<(), AllocError> {
    match Document::from_value(alloc, value) {
        Ok(document) => print_of_domain(alloc, script, domain, &document, answer),
        Err(error) => print_out(&error, answer),
    }
}

fn print_of_domain(
    alloc: Global,
    script: &Script,
    domain: &str,
    document: &Document,
    answer: &mut String,
) -> Result<(), AllocError> {
    match TrustDomain::read(alloc, domain) {
        Ok(domain) => print_document(alloc, script, &domain, document, answer),
        Err(error) => print_out(&error, answer),
    }
}

// Reports the document, which is the same copied, and read from its canonical text in both ways,
// and from its value.
fn print_document(
    alloc: Global,
    script: &Script,
    domain: &TrustDomain,
    document: &Document,
    answer: &mut String,
) -> Result<(), AllocError> {
    let mut answers = Answers::new(alloc);
    let seen = Seen {
        alloc,
        script,
        domain,
        document,
    };
    seen.add("as read", document.canonical(), document, &mut answers)?;
    seen.add_copy(&mut answers)?;
    seen.add_again(&mut answers)?;
    seen.add_direct(&mut answers)?;
    seen.add_value(&mut answers)?;
    answers.write(answer)
}

// A document of a domain, seen in several settings.
#[derive(Drop)]
struct Seen<'a> {
    alloc: Global,
    script: &'a Script,
    domain: &'a TrustDomain,
    document: &'a Document,
}

impl Seen<'_> {
    fn add(
        &self,
        setting: &str,
        canonical: &[u8],
        document: &Document,
        answers: &mut Answers,
    ) -> Result<(), AllocError> {
        let mut stated = String::new(self.alloc);
        self.describe(canonical, document, &mut stated)?;
        answers.add(setting, stated.as_str())
    }

    fn describe(
        &self,
        canonical: &[u8],
        document: &Document,
        stated: &mut String,
    ) -> Result<(), AllocError> {
        if *document != *self.document {
            stated.push_str("another document\n")?;
        }
        self.script.show(canonical, stated)?;
        let id = document.id(self.domain);
        let count = document.authorities().len();
        write!(stated, "\nid {id}\nauthorities {count}\n")?;
        print_number("rank", document.rank(), stated)?;
        print_number("hint", document.hint(), stated)
    }

    fn add_copy(&self, answers: &mut Answers) -> Result<(), AllocError> {
        let copy = self.document.try_clone(self.alloc)?;
        self.add("copied", copy.canonical(), &copy, answers)
    }

    fn add_again(&self, answers: &mut Answers) -> Result<(), AllocError> {
        let setting = "read from its canonical text";
        match Document::read(self.alloc, self.document.canonical()) {
            Ok(again) => self.add(setting, again.canonical(), &again, answers),
            Err(error) => add_line(self.alloc, setting, &error, answers),
        }
    }

    fn add_direct(&self, answers: &mut Answers) -> Result<(), AllocError> {
        let setting = "read directly";
        match Document::read_canonical(self.alloc, self.document.canonical())? {
            Some(again) => self.add(setting, again.canonical(), &again, answers),
            None => Ok(()),
        }
    }

    fn add_value(&self, answers: &mut Answers) -> Result<(), AllocError> {
        let value = self.document.to_value(self.alloc)?;
        self.add_of_value(&value, answers)
    }

    fn add_of_value(&self, value: &Value, answers: &mut Answers) -> Result<(), AllocError> {
        match Document::from_value(self.alloc, value) {
            Ok(again) => self.add_text_of_value(value, &again, answers),
            Err(error) => add_line(self.alloc, "of its value", &error, answers),
        }
    }

    fn add_text_of_value(
        &self,
        value: &Value,
        again: &Document,
        answers: &mut Answers,
    ) -> Result<(), AllocError> {
        let text = value.to_string(self.alloc)?;
        self.add("of its value", text.as_bytes(), again, answers)
    }
}

fn print_number(name: &str, number: Option<u64>, stated: &mut String) -> Result<(), AllocError> {
    match number {
        Some(number) => write!(stated, "{name} {number}\n"),
        None => write!(stated, "no {name}\n"),
    }
}

/// Reports whether the bytes are the same document as the text of this name.
pub(crate) fn compare(
    alloc: Global,
    script: &Script,
    name: &str,
    bytes: &[u8],
    answer: &mut String,
) -> Result<(), AllocError> {
    match Document::read(alloc, script.text(name).unwrap_or(b"")) {
        Ok(document) => compare_with(alloc, &document, bytes, answer),
        Err(error) => print_out(&error, answer),
    }
}

fn compare_with(
    alloc: Global,
    document: &Document,
    bytes: &[u8],
    answer: &mut String,
) -> Result<(), AllocError> {
    match Document::read(alloc, bytes) {
        Ok(other) => answer.push_str(if other == *document {
            "the same\n"
        } else {
            "another\n"
        }),
        Err(error) => print_out(&error, answer),
    }
}

/// Reports whether the document of the bytes has the key of these digits.
pub(crate) fn has_key(
    alloc: Global,
    digits: &str,
    bytes: &[u8],
    answer: &mut String,
) -> Result<(), AllocError> {
    let Ok(key) = <[u8; 32] as FromHex>::from_hex(digits) else {
        return answer.push_str("no key id\n");
    };
    match Document::read(alloc, bytes) {
        Ok(document) => { print_out(&yes(document.has_key(&KeyId(key))), answer) }
        Err(error) => print_out(&error, answer),
    }
}
