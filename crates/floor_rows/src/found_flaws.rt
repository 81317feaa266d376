//! What is wrong in what was refused, and at which place.
use fault_view::{find_flaw, is_ignored, json_fault, push_quoted};
use fed_config::Config;
use serde_json::Value;
use std::alloc::{AllocError, Global};
use std::str;

/// The first wrong part of a configuration that is refused.
pub(crate) fn find(alloc: Global, text: &[u8], answer: &mut String) -> Result<(), AllocError> {
    let Err(cause) = Config::read(alloc, text) else {
        return answer.push_str("no fault\n");
    };
    let Ok(config) = Value::from_slice(alloc, text) else {
        return answer.push_str("no JSON\n");
    };
    match find_flaw(alloc, &config, cause) {
        Some(found) => write!(answer, "{found:?}\n"),
        None => answer.push_str("not found\n"),
    }
}

/// The place at which the bytes stop being JSON.
pub(crate) fn place(alloc: Global, text: &[u8], answer: &mut String) -> Result<(), AllocError> {
    match json_fault(alloc, text) {
        Some(fault) => write!(answer, "line {} column {}\n", fault.line, fault.column),
        None => answer.push_str("JSON\n"),
    }
}

/// The first three numbers of elements of a bundle that count for nothing.
pub(crate) fn ignored(alloc: Global, text: &[u8], answer: &mut String) -> Result<(), AllocError> {
    let Ok(bundle) = Value::from_slice(alloc, text) else {
        return answer.push_str("no JSON\n");
    };
    for number in 0..4 {
        if is_ignored(alloc, &bundle, number) {
            write!(answer, "{number}\n")?;
        }
    }
    Ok(())
}

/// The bytes between quotation marks.
pub(crate) fn quote(alloc: Global, text: &[u8], answer: &mut String) -> Result<(), AllocError> {
    let mut quoted = Vec::new(alloc);
    push_quoted(&mut quoted, text)?;
    answer.push_str(str::from_utf8(quoted.as_slice()).unwrap_or("no UTF-8"))?;
    answer.push_str("\n")
}
