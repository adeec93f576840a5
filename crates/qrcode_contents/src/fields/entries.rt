//! Entries of Wi-Fi and MECARD texts, `KEY:value;`, where a value may have several parts.

ghost use Rattle.std.specs.Prelude.{◌≡◌, ◌<◌, ◌++◌, map, flat_map, string_bytes, OnOk, IsOkUnless};
ghost use Rattle.std.specs.List.{list_any};
ghost use Rattle.qrcode_contents.specs.declared.fields.errors.ContentError.TheVariants.{OutOfMemory};
ghost use Rattle.qrcode_contents.specs.fields.Entries.{is_filled, single, parts_text, marked_text};

use crate::fields::errors::ContentResult;
use crate::fields::escapes::{Escapes, push_escaped};

/// Appends `parts`, escaped, with `separator`, an ASCII character, between them.
///
/// Errors: only `OutOfMemory`; some of it may then be appended.
pub fn push_parts(
    text: &mut String,
    escapes: Escapes,
    separator: char,
    parts: &[&str],
) -> ContentResult<()>
    requires { separator < 128 }
    ensures appends { OnOk result (string_bytes text.new
        ≡ string_bytes text.old
        ++ parts_text escapes separator (map (λ part. part.now) parts.now)) }
    ensures memory { IsOkUnless result OutOfMemory }
{
    let Some((first, later)) = parts.split_first() else {
        return Ok(());
    };
    push_escaped(text, escapes, first)?;
    for part in later {
        text.push(separator)?;
        push_escaped(text, escapes, part)?;
    }
    Ok(())
}

/// Returns whether any part is not empty.
pub fn any_filled(parts: &[&str]) -> bool
    ensures { result ≡ list_any is_filled (map (λ part. part.now) parts.now) }
{
    let mut rest = parts;
    while let [part, more @ ..] = rest {
        if !part.is_empty() {
            return true;
        }
        rest = more;
    }
    false
}

/// Appends the entry of `key` and `parts`, escaped and separated by commas, and a semicolon;
/// nothing if all parts are empty.
///
/// Errors: only `OutOfMemory`; some of it may then be appended.
pub fn push_entry(text: &mut String, key: &str, parts: &[&str]) -> ContentResult<()>
    ensures appends { OnOk result (string_bytes text.new
        ≡ string_bytes text.old ++ marked_text (key.now, map (λ part. part.now) parts.now)) }
    ensures memory { IsOkUnless result OutOfMemory }
{
    if !any_filled(parts) {
        return Ok(());
    }
    text.push_str(key)?;
    text.push_str(":")?;
    push_parts(text, Escapes::Marks, ',', parts)?;
    text.push_str(";")?;
    Ok(())
}

/// Appends entries, each a key and a text. Leaves out those whose text is empty.
///
/// Errors: only `OutOfMemory`; some of them may then be appended.
pub fn push_texts(text: &mut String, entries: &[(&str, &str)]) -> ContentResult<()>
    ensures appends { OnOk result (string_bytes text.new ≡ string_bytes text.old
        ++ flat_map marked_text (map (λ entry. single entry.0.now entry.1.now) entries.now)) }
    ensures memory { IsOkUnless result OutOfMemory }
{
    for (key, value) in entries {
        push_entry(text, key, &[*value])?;
    }
    Ok(())
}
