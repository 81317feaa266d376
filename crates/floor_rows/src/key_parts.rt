//! What a certificate says of its key.
use cert_key::{CertParts, moment_text, name_text, read_certificate};
use std::alloc::{AllocError, Global};

/// Reports the parts of a certificate.
pub(crate) fn read(alloc: Global, der: &[u8], answer: &mut String) -> Result<(), AllocError> {
    match read_certificate(der) {
        Some(parts) => print_out(alloc, &parts, answer),
        None => answer.push_str("none\n"),
    }
}

fn print_out(alloc: Global, parts: &CertParts<'_>, answer: &mut String) -> Result<(), AllocError> {
    let public_key = hex::encode(alloc, parts.public_key)?;
    let subject = hex::encode(alloc, parts.subject)?;
    write!(answer, "public key {public_key}\nsubject {subject}\n")?;
    write!(answer, "from {} to {}\n", parts.not_before, parts.not_after)
}

/// Reports the text of a name.
pub(crate) fn read_name(alloc: Global, der: &[u8], answer: &mut String) -> Result<(), AllocError> {
    match name_text(alloc, der)? {
        Some(text) => write!(answer, "text {text}\n"),
        None => answer.push_str("none\n"),
    }
}

/// Reports the text of a time, which is given in seconds.
pub(crate) fn read_moment(
    alloc: Global,
    seconds: &str,
    answer: &mut String,
) -> Result<(), AllocError> {
    match seconds.parse::<i64>() {
        Ok(seconds) => write!(answer, "{}\n", moment_text(alloc, seconds)?),
        Err(_) => answer.push_str("no number\n"),
    }
}
