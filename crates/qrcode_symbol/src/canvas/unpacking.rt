//! Writes packed rows as colours.

ghost use Rattle.std.specs.Prelude.{◌≡◌, ℕ, ◌+◌, ◌*◌, ◌<◌, ◌≤◌, [], length, map, slice_index_or, IfOk, IsOkUnless};
ghost use Rattle.qrcode_types.specs.Colors.{color_of};
ghost use Rattle.qrcode_types.specs.declared.types.Color.TheVariants.{Light};
ghost use Rattle.qrcode_types.specs.declared.types.QrError.TheVariants.{OutOfMemory};
ghost use Rattle.qrcode_penalty.specs.Rows.{is_set, dark_in};
ghost use Rattle.qrcode_symbol.specs.Unpacking.{IsRowWritten};

use qrcode_layout::figures::color_of;
use qrcode_penalty::row::PackedRow;
use qrcode_types::types::{Color, QrResult};

// Returns the colours of 64 bits. Written with the word's bytes, so that LLVM handles sixteen at a
// time.
#[inline(always)]
fn colors_of(word: u64) -> [Color; 64]
    ensures length { length result ≡ 64 }
    ensures shown { (x : ℕ) → x < 64
        → slice_index_or result x Light ≡ color_of (is_set word x) }
{
    let bytes = word.to_le_bytes();
    let mut colors = [Color::Light; 64];
    for x in 0..64 {
        colors[x] = color_of((bytes[x / 8] >> (x % 8)) % 2 == 1);
    }
    colors
}

// Appends the colours of the first `count` bits of a word.
#[inline(always)]
fn append(colors: &mut Vec<Color>, word: u64, count: usize) -> QrResult<()>
    requires { count ≤ 64 }
    ensures written { IfOk result (λ _.
        IsRowWritten word count colors.old.items colors.new.items) }
    ensures memory { IsOkUnless result OutOfMemory }
{
    colors.extend_from_slice(&colors_of(word)[..count])?;
    Ok(())
}

// Appends the colours of a row whose dark modules are set. It appends word by word, so that the
// memory need not be filled first.
fn unpack_row<R: PackedRow>(line: R, width: usize, colors: &mut Vec<Color>) -> QrResult<()>
    ensures written { IfOk result (λ _.
        IsRowWritten (R.bits line) width colors.old.items colors.new.items) }
    ensures memory { IsOkUnless result OutOfMemory }
{
    let mut rest = line;
    for _ in 0..width / 64 {
        append(colors, rest.first_word(), 64)?;
        rest = rest.down(63).down(1);
    }
    append(colors, rest.first_word(), width % 64)?;
    Ok(())
}

/// Appends the colours of the rows of a square, in which dark modules are set.
#[tactic(auto, using(std::proofs::lemmas::Nat::rows))]
pub(super) fn unpack_rows<R: PackedRow>(
    width: usize,
    rows: &[R],
    colors: &mut Vec<Color>,
) -> QrResult<()>
    requires length { length rows.now ≡ width }
    requires empty { colors.old.items ≡ [] }
    ensures length { IfOk result (λ _. length colors.new.items ≡ width * width) }
    ensures shown { IfOk result (λ _. (x y : ℕ) → x < width → y < width
        → slice_index_or colors.new.items (y * width + x) Light
        ≡ color_of (dark_in (map R.bits rows.now) x y)) }
    ensures memory { IsOkUnless result OutOfMemory }
{
    for y in 0..width {
        unpack_row(rows[y], width, colors)?;
    }
    Ok(())
}
