//! Texts of several lines.

ghost use Rattle.std.specs.Prelude.{◌≡◌, ◌++◌, map, string_bytes, OnOk, IsOkUnless};
ghost use Rattle.qrcode_contents.specs.declared.fields.errors.ContentError.TheVariants.{OutOfMemory};
ghost use Rattle.qrcode_contents.specs.fields.Lines.{later_text};

use crate::fields::errors::ContentResult;

/// Appends `lines`, with a line feed before each.
///
/// Errors: only `OutOfMemory`; some of them may then be appended.
pub fn push_lines(text: &mut String, lines: &[&str]) -> ContentResult<()>
    ensures appends { OnOk result (string_bytes text.new
        ≡ string_bytes text.old ++ later_text (map (λ line. line.now) lines.now)) }
    ensures memory { IsOkUnless result OutOfMemory }
{
    for line in lines {
        text.push_str("\n")?;
        text.push_str(line)?;
    }
    Ok(())
}
