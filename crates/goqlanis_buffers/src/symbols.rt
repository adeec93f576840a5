//! Copies symbols and other items into buffers.

ghost use Rattle.std.specs.Prelude.{◌≡◌, ◌<◌, ◌≤◌, length, IfOk, IfErr, IsOkUnless, OnErr, OnOk};
ghost use Rattle.qrcode_types.specs.declared.types.QrError.TheVariants.{OutOfMemory};
ghost use Rattle.goqlanis_buffers.specs.Shades.{colors_of};
ghost use Rattle.goqlanis_buffers.specs.Outputs.{module_bytes, IsDescribed, IsFilled, IsWritten, IsWrittenAs};
ghost use Rattle.goqlanis_buffers.specs.Symbols.{IsMasked, IsMaskingCause};
ghost use Rattle.goqlanis_buffers.specs.declared.answers.Refusal.TheVariants.{SmallBuffer};

use crate::answers::Refusal;
use crate::names::{level_number, version_number};
use goqlanis_request::masking::modules_under;
use qrcode::QrCode;
use qrcode::types::{Color, QrError, QrResult};
use std::alloc::Global;

/// What a symbol is, besides its modules.
#[repr(C)]
#[derive(Clone, Copy)]
pub struct Symbol {
    /// 1 to 40 for Normal, 41 to 44 for Micro.
    pub version: u32,
    /// 0 for `L`, 1 for `M`, 2 for `Q`, 3 for `H`.
    pub level: u32,
    /// The number of modules along a side.
    pub width: u32,
}

/// Writes the modules of a symbol to the start of `modules`, and returns version, level and width.
///
/// Errors: `SmallBuffer`; then `modules` is unchanged.
pub(crate) fn write_symbol(code: QrCode, modules: &mut [u8]) -> Result<Symbol, Refusal>
    ensures written { IfOk result (IsWritten code modules.old modules.new) }
    ensures unchanged { OnErr result (modules.new ≡ modules.old) }
    ensures causes { IfErr result (λ refusal. refusal ≡ SmallBuffer) }
    ensures no_room { OnErr result (length modules.old < length code.modules) }
{
    let symbol = described(&code);
    let colors = code.into_colors();
    if modules.len() < colors.len() {
        return Err(Refusal::SmallBuffer);
    }
    fill_modules(modules, &colors);
    Ok(symbol)
}

/// Writes the modules of a symbol to the start of `modules`, under the mask of this number if one
/// is given. Returns version, level and width.
///
/// Errors: `NoSuchMask` if the version has no mask of this number, `SmallBuffer` or `OutOfMemory`.
/// After an error `modules` is unchanged.
#[tactic(auto, using(crate::proofs::Masked::written))]
pub(crate) fn write_masked(
    alloc: Global,
    code: &QrCode,
    mask: Option<usize>,
    modules: &mut [u8],
) -> Result<Symbol, Refusal>
    ensures written { IfOk result
        (IsWrittenAs (IsMasked mask code.now) modules.old modules.new) }
    ensures unchanged { OnErr result (modules.new ≡ modules.old) }
    ensures causes { IfErr result (IsMaskingCause mask code.now (length modules.old)) }
{
    let colors = match modules_under(alloc, code, mask) {
        Ok(colors) => colors,
        Err(QrError::OutOfMemory) => return Err(Refusal::OutOfMemory),
        Err(_) => return Err(Refusal::NoSuchMask),
    };
    if modules.len() < colors.len() {
        return Err(Refusal::SmallBuffer);
    }
    fill_modules(modules, &colors);
    Ok(described(code))
}

/// Returns version, level and width of a symbol.
pub(crate) fn described(code: &QrCode) -> Symbol
    ensures value { IsDescribed code.now result }
{
    Symbol {
        version: version_number(code.version()),
        level: level_number(code.error_correction_level()),
        width: code.width() as u32,
    }
}

/// Writes modules as bytes to the start of a buffer that has room for them.
pub(crate) fn fill_modules(out: &mut [u8], colors: &[Color])
    requires room { length colors.now ≤ length out.old }
    ensures filled { IsFilled out.old out.new (module_bytes colors.now) }
{
    for i in 0..colors.len() {
        out[i] = colors[i].select(1, 0);
    }
}

/// Returns the modules that bytes stand for: dark if not zero. Errors: only `OutOfMemory`.
pub(crate) fn colors_of(alloc: Global, modules: &[u8]) -> QrResult<Vec<Color>>
    ensures value { IfOk result (λ colors. colors.items ≡ colors_of modules.now) }
    ensures memory { IsOkUnless result OutOfMemory }
{
    let mut colors = vec![in alloc; Color::Light; modules.len()]?;
    color_all(&mut colors, modules);
    Ok(colors)
}

// Writes the modules that bytes stand for. The loop counts indices, so that the compiler handles
// sixteen at once.
fn color_all(colors: &mut [Color], modules: &[u8])
    requires room { length colors.old ≡ length modules.now }
    ensures value { colors.new ≡ colors_of modules.now }
{
    for i in 0..modules.len() {
        colors[i] = if modules[i] == 0 {
            Color::Light
        } else {
            Color::Dark
        };
    }
}

/// Copies items to the start of a buffer, and returns how many there are.
///
/// Errors: `SmallBuffer`; then the buffer is unchanged.
pub(crate) fn put<T: Copy>(out: &mut [T], items: &[T]) -> Result<usize, Refusal>
    ensures filled { OnOk result (IsFilled out.old out.new items.now) }
    ensures counted { IfOk result (λ count. count ≡ length items.now) }
    ensures unchanged { OnErr result (out.new ≡ out.old) }
    ensures causes { IfErr result (λ refusal. refusal ≡ SmallBuffer) }
    ensures no_room { OnErr result (length out.old < length items.now) }
{
    if out.len() < items.len() {
        return Err(Refusal::SmallBuffer);
    }
    fill(out, items);
    Ok(items.len())
}

/// Copies items to the start of a buffer that has room for them.
pub(crate) fn fill<T: Copy>(out: &mut [T], items: &[T])
    requires room { length items.now ≤ length out.old }
    ensures filled { IsFilled out.old out.new items.now }
{
    out[..items.len()].copy_from_slice(items);
}
