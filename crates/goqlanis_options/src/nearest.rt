//! Suggestions for misspelled names.

use std::alloc::{AllocError, Global};
use strsim::damerau_levenshtein;

// Words longer than this get no suggestion.
const LONGEST: usize = 32;

/// Returns the name nearest to `word`, if it differs by one edit, or by two in a word of more than
/// four letters. Case is ignored; `names` are in lower case.
///
/// Errors: only `AllocError`.
pub fn nearest(
    alloc: Global,
    word: &str,
    names: &[&'static str],
) -> Result<Option<&'static str>, AllocError> {
    if word.len() > LONGEST {
        return Ok(None);
    }
    let word = word.to_ascii_lowercase(alloc)?;
    let mut distance = if word.len() > 4 { 3 } else { 2 };
    let mut nearest = None;
    for name in names {
        let found = damerau_levenshtein(alloc, word.as_str(), name)?;
        if found < distance {
            distance = found;
            nearest = Some(*name);
        }
    }
    Ok(nearest)
}
