//! Bytes as they are shown in what comes of a row.
use crate::script::Script;
use sha2::{Digest, Sha256};
use std::alloc::{AllocError, Global};

// The most bytes of a text that is shown byte by byte.
const MAX_SHOWN_BYTES: usize = 200;

impl Script {
    /// Appends a text as it is shown on one line, without a line feed after it: up to 200 bytes
    /// byte by byte, otherwise as `${NAME}` if a line of the script gave this text a name, or else
    /// as its length and its SHA-256.
    ///
    /// A byte that is not printable ASCII is shown as `\xff`, a line feed as `\n`, and a backslash
    /// as two.
    ///
    /// # Errors
    /// Memory ran out.
    pub fn show(&self, text: &[u8], answer: &mut String) -> Result<(), AllocError> {
        if text.len() <= MAX_SHOWN_BYTES {
            return show_bytes(text, answer);
        }
        match self.name_of(text) {
            Some(name) => write!(answer, "${{{name}}}"),
            None => show_digest(self.alloc, text, answer),
        }
    }

    /// Appends the lines of a text, each as [`Script::show`] shows it, and a line feed after each.
    /// If the text does not end with a line feed, a line more says so. An empty text has no lines.
    ///
    /// # Errors
    /// Memory ran out.
    pub fn show_lines(&self, text: &[u8], answer: &mut String) -> Result<(), AllocError> {
        if text.is_empty() {
            return Ok(());
        }
        match text.strip_suffix(b"\n".as_slice()) {
            Some(lines) => self.show_each_line(lines, answer),
            None => {
                self.show_each_line(text, answer)?;
                answer.push_str("(no line feed at the end)\n")
            }
        }
    }

    fn show_each_line(&self, lines: &[u8], answer: &mut String) -> Result<(), AllocError> {
        for line in lines.split(|byte| *byte == b'\n') {
            self.show(line, answer)?;
            answer.push_str("\n")?;
        }
        Ok(())
    }
}

fn show_bytes(text: &[u8], answer: &mut String) -> Result<(), AllocError> {
    for byte in text {
        show_byte(*byte, answer)?;
    }
    Ok(())
}

fn show_byte(byte: u8, answer: &mut String) -> Result<(), AllocError> {
    match byte {
        b'\n' => answer.push_str("\\n"),
        b'\\' => answer.push_str("\\\\"),
        b' '..=b'~' => answer.push(char::from(byte)),
        _ => write!(answer, "\\x{byte:02x}"),
    }
}

fn show_digest(alloc: Global, text: &[u8], answer: &mut String) -> Result<(), AllocError> {
    let digest = hex::encode(alloc, Sha256::digest(text))?;
    let count = text.len();
    write!(answer, "{count} bytes, sha256 {digest}")
}
