//! What comes of a row in several settings.
use std::alloc::{AllocError, Global};

/// What came of a row in several settings, which must all have the same outcome.
#[derive(Drop)]
pub struct Answers {
    setting: String,
    text: String,
    others: String,
}

impl Answers {
    /// No answer yet.
    pub fn new(alloc: Global) -> Answers {
        Answers {
            setting: String::new(alloc),
            text: String::new(alloc),
            others: String::new(alloc),
        }
    }

    /// Takes the lines that came in a setting, whose name is not empty.
    ///
    /// # Errors
    /// Memory ran out.
    pub fn add(&mut self, setting: &str, text: &str) -> Result<(), AllocError> {
        if self.setting.is_empty() {
            self.setting.push_str(setting)?;
            self.text.push_str(text)
        } else if self.text.as_str() == text {
            Ok(())
        } else {
            write!(self.others, "{setting}:\n{text}")
        }
    }

    /// Appends the lines that came, once if they were the same in all settings. If not, appends
    /// those of the first setting and of each that differs from it, each below the setting's name.
    ///
    /// # Errors
    /// Memory ran out.
    pub fn write(&self, answer: &mut String) -> Result<(), AllocError> {
        if !self.others.is_empty() {
            answer.push_str(self.setting.as_str())?;
            answer.push_str(":\n")?;
        }
        answer.push_str(self.text.as_str())?;
        answer.push_str(self.others.as_str())
    }
}
