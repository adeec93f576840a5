//! Content lines of vCard and iCalendar: folded at 75 octets, each ended by CR LF.

ghost use Rattle.std.specs.Prelude.{◌≡◌, ◌+◌, ◌≤◌, [], ◌∷◌, ◌++◌, map, string_bytes, encode_utf8, IfOk, OnOk, IsOkUnless};
ghost use Rattle.std.specs.Char.{len_utf8};
ghost use Rattle.qrcode_contents.specs.declared.fields.errors.ContentError.TheVariants.{OutOfMemory};
ghost use Rattle.qrcode_contents.specs.fields.ContentLines.{fold_break, next_column, folded_from, content_line, content_text, structured};

use crate::fields::entries::{any_filled, push_parts};
use crate::fields::errors::ContentResult;
use crate::fields::escapes::Escapes;
use std::alloc::Global;

// Appends a character, on a new line after a space if this line would exceed 75 octets. Returns the
// octets that the line then has.
fn push_character(text: &mut String, column: usize, character: char) -> ContentResult<usize>
    requires { column ≤ 75 }
    ensures appends { OnOk result (string_bytes text.new ≡ string_bytes text.old
        ++ (fold_break column (len_utf8 character) ++ encode_utf8 character)) }
    ensures column { IfOk result (λ next. next ≡ next_column column (len_utf8 character)) }
    ensures at_most { IfOk result (λ next. next ≤ 75) }
    ensures memory { IsOkUnless result OutOfMemory }
{
    let width = character.len_utf8();
    if column + width > 75 {
        text.push_str("\r\n ")?;
        text.push(character)?;
        return Ok(1 + width);
    }
    text.push(character)?;
    Ok(column + width)
}

// Appends a line, folded, without its end.
fn push_folded(text: &mut String, line: &str) -> ContentResult<()>
    ensures appends { OnOk result (string_bytes text.new
        ≡ string_bytes text.old ++ folded_from 0 0 line.now) }
    ensures memory { IsOkUnless result OutOfMemory }
{
    let mut column: usize = 0;
    for character in line.chars() {
        column = push_character(text, column, character)?;
    }
    Ok(())
}

/// Appends a line of `key` and `value`, folded but not escaped; nothing if `value` is empty.
///
/// Errors: only `OutOfMemory`; some of it may then be appended.
pub fn push_value(alloc: Global, text: &mut String, key: &str, value: &str) -> ContentResult<()>
    ensures appends { OnOk result (string_bytes text.new
        ≡ string_bytes text.old ++ content_line (key.now, value.now)) }
    ensures memory { IsOkUnless result OutOfMemory }
{
    if value.is_empty() {
        return Ok(());
    }
    let mut line = String::from_str(alloc, key)?;
    line.push_str(":")?;
    line.push_str(value)?;
    push_folded(text, line.as_str())?;
    text.push_str("\r\n")?;
    Ok(())
}

/// Appends a line of `key` and `parts`, escaped, separated by semicolons, and folded; nothing if
/// all parts are empty.
///
/// Errors: only `OutOfMemory`; some of it may then be appended.
pub fn push_content(
    alloc: Global,
    text: &mut String,
    key: &str,
    parts: &[&str],
) -> ContentResult<()>
    ensures appends { OnOk result (string_bytes text.new ≡ string_bytes text.old
        ++ content_line (key.now, structured (map (λ part. part.now) parts.now))) }
    ensures memory { IsOkUnless result OutOfMemory }
{
    let mut value = String::new(alloc);
    if any_filled(parts) {
        push_parts(&mut value, Escapes::Lines, ';', parts)?;
    }
    push_value(alloc, text, key, value.as_str())
}

/// Appends lines, each a key and a text, escaped and folded. Leaves out those whose text is empty.
///
/// Errors: only `OutOfMemory`; some of them may then be appended.
pub fn push_texts(alloc: Global, text: &mut String, lines: &[(&str, &str)]) -> ContentResult<()>
    ensures appends { OnOk result (string_bytes text.new ≡ string_bytes text.old
        ++ content_text (map (λ line. (line.0.now, structured (line.1.now ∷ []))) lines.now)) }
    ensures memory { IsOkUnless result OutOfMemory }
{
    for (key, value) in lines {
        push_content(alloc, text, key, &[*value])?;
    }
    Ok(())
}
