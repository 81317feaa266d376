//! Elements of documents, and the texts in them.
use jwk_set::{Authority, Certificate, NonEmptyText, UrlText, read_element};
use row_script::{Answers, Script};
use serde_json::Value;
use std::alloc::{AllocError, Global};

/// Reports the authority that an element says: its text and its key id.
pub(crate) fn read(
    alloc: Global,
    script: &Script,
    text: &[u8],
    answer: &mut String,
) -> Result<(), AllocError> {
    match Value::from_slice(alloc, text) {
        Ok(element) => read_value(alloc, script, &element, answer),
        Err(_) => answer.push_str("no JSON\n"),
    }
}

fn read_value(
    alloc: Global,
    script: &Script,
    element: &Value,
    answer: &mut String,
) -> Result<(), AllocError> {
    match read_element(alloc, element)? {
        Some(authority) => print_out(alloc, script, &authority, answer),
        None => answer.push_str("none\n"),
    }
}

fn print_out(
    alloc: Global,
    script: &Script,
    authority: &Authority,
    answer: &mut String,
) -> Result<(), AllocError> {
    let mut answers = Answers::new(alloc);
    add_text(alloc, script, authority, &mut answers)?;
    add_copy(alloc, script, authority, &mut answers)?;
    answers.write(answer)
}

fn add_text(
    alloc: Global,
    script: &Script,
    authority: &Authority,
    answers: &mut Answers,
) -> Result<(), AllocError> {
    let text = authority.to_text(alloc)?;
    add(
        alloc,
        script,
        "as a text",
        text.as_str(),
        authority,
        answers,
    )
}

fn add_copy(
    alloc: Global,
    script: &Script,
    authority: &Authority,
    answers: &mut Answers,
) -> Result<(), AllocError> {
    let copy = authority.try_clone()?;
    if copy != *authority {
        answers.add("copied", "unequal\n")?;
    }
    add_value(alloc, script, &copy, answers)
}

fn add_value(
    alloc: Global,
    script: &Script,
    authority: &Authority,
    answers: &mut Answers,
) -> Result<(), AllocError> {
    let value = authority.to_value(alloc)?;
    add_value_text(alloc, script, &value, authority, answers)
}

fn add_value_text(
    alloc: Global,
    script: &Script,
    value: &Value,
    authority: &Authority,
    answers: &mut Answers,
) -> Result<(), AllocError> {
    let text = value.to_string(alloc)?;
    add(
        alloc,
        script,
        "as a value of a copy",
        text.as_str(),
        authority,
        answers,
    )
}

fn add(
    alloc: Global,
    script: &Script,
    setting: &str,
    text: &str,
    authority: &Authority,
    answers: &mut Answers,
) -> Result<(), AllocError> {
    let mut stated = String::new(alloc);
    describe(script, text, authority, &mut stated)?;
    answers.add(setting, stated.as_str())
}

fn describe(
    script: &Script,
    text: &str,
    authority: &Authority,
    stated: &mut String,
) -> Result<(), AllocError> {
    script.show(text.as_bytes(), stated)?;
    match authority.key_id() {
        Some(key) => write!(stated, "\nkey {key}\n"),
        None => stated.push_str("\nno key id\n"),
    }
}

/// Reports a text of the symbols of base64url, and its copy.
pub(crate) fn read_url_text(
    alloc: Global,
    script: &Script,
    text: &str,
    answer: &mut String,
) -> Result<(), AllocError> {
    match UrlText::read(alloc, text)? {
        Some(read) => {
            print_text(script, read.as_str(), answer)?;
            print_equal(read.try_clone()? == read, answer)
        }
        None => answer.push_str("none\n"),
    }
}

/// Reports a text that is not empty, and its copy.
pub(crate) fn read_non_empty_text(
    alloc: Global,
    script: &Script,
    text: &str,
    answer: &mut String,
) -> Result<(), AllocError> {
    match NonEmptyText::read(alloc, text)? {
        Some(read) => {
            print_text(script, read.as_str(), answer)?;
            print_equal(read.try_clone()? == read, answer)
        }
        None => answer.push_str("none\n"),
    }
}

/// Reports the bytes of a certificate, its text and its copy.
pub(crate) fn read_certificate(
    alloc: Global,
    script: &Script,
    text: &str,
    answer: &mut String,
) -> Result<(), AllocError> {
    match Certificate::decode(alloc, text)? {
        Some(read) => print_certificate(alloc, script, &read, answer),
        None => answer.push_str("none\n"),
    }
}

fn print_certificate(
    alloc: Global,
    script: &Script,
    certificate: &Certificate,
    answer: &mut String,
) -> Result<(), AllocError> {
    script.show(certificate.as_bytes(), answer)?;
    answer.push_str("\n")?;
    print_encoded(alloc, script, certificate, answer)?;
    print_equal(certificate.try_clone()? == *certificate, answer)
}

fn print_encoded(
    alloc: Global,
    script: &Script,
    certificate: &Certificate,
    answer: &mut String,
) -> Result<(), AllocError> {
    let text = certificate.encode(alloc)?;
    print_text(script, text.as_str(), answer)
}

fn print_text(script: &Script, text: &str, answer: &mut String) -> Result<(), AllocError> {
    script.show(text.as_bytes(), answer)?;
    answer.push_str("\n")
}

fn print_equal(is_equal: bool, answer: &mut String) -> Result<(), AllocError> {
    answer.push_str(if is_equal {
        "equal to its copy\n"
    } else {
        "not equal to its copy\n"
    })
}
