//! Amounts of money, with two digits after the point.

ghost use Rattle.std.specs.Prelude.{◌≡◌, ◌++◌, ◌^◌, ◌<◌, string_bytes, IfOk, OnOk, IsOkUnless};
ghost use Rattle.qrcode_contents.specs.declared.fields.errors.ContentError.TheVariants.{OutOfMemory};
ghost use Rattle.qrcode_contents.specs.Bill.{amount_line};
ghost use Rattle.qrcode_contents.specs.fields.Amounts.{amount_text};

use crate::fields::errors::ContentResult;
use std::alloc::Global;
use std::fmt::Write;

/// Appends an amount of `hundredths` with two digits after the point, e.g. `12.30` for 1230.
///
/// Errors: only `OutOfMemory`; some of it may then be appended.
#[tactic(auto, unfolding(crate::specs::fields::Amounts::amount_text))]
pub fn push_amount(text: &mut String, hundredths: u64) -> ContentResult<()>
    ensures appends { OnOk result (string_bytes text.new
        ≡ string_bytes text.old ++ amount_text hundredths) }
    ensures memory { IsOkUnless result OutOfMemory }
{
    let whole = hundredths / 100;
    let tenths = hundredths / 10 % 10;
    let ones = hundredths % 10;
    write!(text, "{whole}.{tenths}{ones}")?;
    Ok(())
}

/// Returns an amount of `hundredths` as text, e.g. `12.30`; empty if it is left open (`None`).
///
/// Errors: only `OutOfMemory`.
pub fn open_amount(alloc: Global, hundredths: Option<u64>) -> ContentResult<String>
    ensures value { IfOk result (λ text. string_bytes text ≡ amount_line hundredths) }
    ensures memory { IsOkUnless result OutOfMemory }
{
    let mut text = String::new(alloc);
    if let Some(hundredths) = hundredths {
        push_amount(&mut text, hundredths)?;
    }
    Ok(text)
}
