//! Strings of JSON.

use goqlanis_files::streams::is_unseen;
use std::alloc::AllocError;

/// Appends the member `file` of a JSON object, with a comma behind it.
///
/// Errors: only `AllocError`.
pub fn push_file(text: &mut String, file: &str) -> Result<(), AllocError> {
    text.push_str("\"file\": \"")?;
    push_string(text, file)?;
    text.push_str("\", ")
}

/// Appends the characters of a JSON string. Control and invisible characters become `\u` escapes.
///
/// Errors: only `AllocError`.
pub fn push_string(text: &mut String, plain: &str) -> Result<(), AllocError> {
    for character in plain.chars() {
        match character {
            '"' => text.push_str("\\\"")?,
            '\\' => text.push_str("\\\\")?,
            _ if is_unseen(character) => {
                for unit in character.encode_utf16(&mut [0; 2]) {
                    write!(text, "\\u{unit:04x}")?;
                }
            }
            _ => text.push(character)?,
        }
    }
    Ok(())
}
