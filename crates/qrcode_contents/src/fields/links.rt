//! Percent-encoded parts and parameters of links.

ghost use Rattle.std.specs.Prelude.{◌≡◌, ◌++◌, map, string_bytes, OnOk, IsOkUnless};
ghost use Rattle.qrcode_contents.specs.declared.fields.errors.ContentError.TheVariants.{OutOfMemory};
ghost use Rattle.qrcode_contents.specs.fields.Links.{mark_text, part_byte, part_text, parameter_text, query_text};

use crate::fields::errors::ContentResult;
use crate::fields::percents::push_byte;

/// The part of a link that a text is in.
#[derive(Copy, Clone, PartialEq, Eq, Debug)]
pub enum LinkPart {
    /// A path, in which `@` is not encoded.
    Path,
    /// A path of addresses, in which neither `@` nor `,` is encoded.
    Addresses,
    /// The value of a parameter, in which a line feed becomes CR LF (`%0D%0A`).
    Value,
}

// Appends a byte, encoded for this part of a link.
fn push_part_byte(text: &mut String, part: LinkPart, byte: u8) -> ContentResult<()>
    ensures appends { OnOk result (string_bytes text.new
        ≡ string_bytes text.old ++ part_byte part byte) }
    ensures memory { IsOkUnless result OutOfMemory }
{
    match (part, byte) {
        (LinkPart::Path | LinkPart::Addresses, b'@') => text.push_str("@")?,
        (LinkPart::Addresses, b',') => text.push_str(",")?,
        (LinkPart::Value, b'\n') => text.push_str("%0D%0A")?,
        _ => push_byte(text, byte)?,
    }
    Ok(())
}

/// Appends `value`, percent-encoded for this `part` of a link.
///
/// Errors: only `OutOfMemory`; some of it may then be appended.
#[tactic(auto, unfolding(crate::specs::fields::Links::part_text))]
pub fn push_part(text: &mut String, part: LinkPart, value: &str) -> ContentResult<()>
    ensures appends { OnOk result (string_bytes text.new
        ≡ string_bytes text.old ++ part_text part value.now) }
    ensures memory { IsOkUnless result OutOfMemory }
{
    let bytes = value.as_bytes();
    for byte in bytes {
        push_part_byte(text, part, *byte)?;
    }
    Ok(())
}

// The character before a parameter: `&` if others come before it, else `?`.
fn mark(begun: bool) -> &'static str
    ensures { result.now ≡ mark_text begun }
{
    if begun { "&" } else { "?" }
}

// Appends `mark`, `key`, `=` and `value`, which is percent-encoded.
fn push_parameter(text: &mut String, mark: &str, key: &str, value: &str) -> ContentResult<()>
    ensures appends { OnOk result (string_bytes text.new
        ≡ string_bytes text.old ++ (mark.now ++ parameter_text (key.now, value.now))) }
    ensures memory { IsOkUnless result OutOfMemory }
{
    text.push_str(mark)?;
    text.push_str(key)?;
    text.push_str("=")?;
    push_part(text, LinkPart::Value, value)
}

/// Appends parameters, each a key and a value, and leaves out those whose value is empty. Before
/// the first comes `?`, or `&` if the link has parameters already (`begun`); before the others `&`.
///
/// Errors: only `OutOfMemory`; some of them may then be appended.
pub fn push_parameters(
    text: &mut String,
    begun: bool,
    parameters: &[(&str, &str)],
) -> ContentResult<()>
    ensures appends { OnOk result (string_bytes text.new ≡ string_bytes text.old
        ++ query_text (mark_text begun) (map (λ pair. (pair.0.now, pair.1.now)) parameters.now)) }
    ensures memory { IsOkUnless result OutOfMemory }
{
    let (mut begun, mut rest) = (begun, parameters);
    while let [(key, value), more @ ..] = rest {
        if !value.is_empty() {
            push_parameter(text, mark(begun), key, value)?;
            begun = true;
        }
        rest = more;
    }
    Ok(())
}
