//! JSON that is written value by value. A function here that gives a `Result` answers `AllocError` where a request for
//! memory was refused.
use std::alloc::{AllocError, Global};
use std::fmt::Write;

/// JSON, as far as it is written.
#[derive(Drop)]
pub(crate) struct Json {
    pub(crate) text: String,
}

impl Json {
    /// Nothing is written.
    pub(crate) fn new(alloc: Global) -> Json {
        Json {
            text: String::new(alloc),
        }
    }

    /// Adds the beginning of a value, behind a comma where another one stands before it.
    pub(crate) fn open(&mut self, value: &str) -> Result<(), AllocError> {
        let is_first = self.text.ends_with('[') || self.text.ends_with('{');
        if !self.text.is_empty() && !is_first {
            self.text.push_str(",")?;
        }
        self.text.push_str(value)
    }

    /// Adds the end of a value.
    pub(crate) fn close(&mut self, end: &str) -> Result<(), AllocError> {
        self.text.push_str(end)
    }

    /// Adds a name with the beginning of its value.
    pub(crate) fn key(&mut self, key: &str, value: &str) -> Result<(), AllocError> {
        self.open("\"")?;
        write!(&mut self.text, "{key}\":{value}")
    }

    /// Adds a name with a number.
    pub(crate) fn number(&mut self, key: &str, number: u64) -> Result<(), AllocError> {
        self.key(key, "")?;
        write!(&mut self.text, "{number}")
    }

    /// Adds a name with a text.
    pub(crate) fn word(&mut self, key: &str, text: &str) -> Result<(), AllocError> {
        self.key(key, "")?;
        self.string(text)
    }

    /// Adds the text as a string.
    pub(crate) fn string(&mut self, text: &str) -> Result<(), AllocError> {
        self.text.push_str("\"")?;
        for character in text.chars() {
            let code = character as u32;
            match character {
                '"' => self.text.push_str("\\\"")?,
                '\\' => self.text.push_str("\\\\")?,
                _ if code < 32 => write!(&mut self.text, "\\u{code:04x}")?,
                _ => self.text.push(character)?,
            }
        }
        self.text.push_str("\"")
    }
}
