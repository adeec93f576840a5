//! Computes the rows of a square under a mask, with the format word.

ghost use Rattle.std.specs.Prelude.{◌≡◌, ◌≢◌, ℕ, ◌+◌, ◌-◌, ◌%◌, ◌<◌, ◌≤◌, ◌^◌, ◌&&◌, length, map, slice_index_or, true, false, IsTrue};
ghost use Rattle.qrcode_types.specs.Bits.{has_bit};
ghost use Rattle.qrcode_types.specs.Versions.{is_micro};
ghost use Rattle.qrcode_penalty.specs.Rows.{FitsWidth, IsSquare, is_set, dark_in, Shows};
ghost use Rattle.qrcode_layout.specs.Masks.{turns, turned_if, exists_in};
ghost use Rattle.qrcode_layout.specs.Words.{format_word};
ghost use Rattle.qrcode_symbol.specs.Masking.{masked_dark, next_places, three_words};
ghost use Rattle.qrcode_symbol.specs.Deciding.{IsPutInRow, IsPutInColumn, AreDecided};

use super::layer::Layer;
use super::packing::PackedModules;
use qrcode_layout::masks::MaskPattern;
use qrcode_layout::words::format_word;
use qrcode_penalty::row::PackedRow;
use qrcode_types::types::Version;

// The modules that each mask reverses, in six columns of twelve rows; column x is bit x. All masks
// repeat every six columns and every twelve rows.
#[rattlefmt::skip]
static TURNED: [[u8; 12]; 8] = [
    [0o25, 0o52, 0o25, 0o52, 0o25, 0o52, 0o25, 0o52, 0o25, 0o52, 0o25, 0o52],
    [0o77, 0o00, 0o77, 0o00, 0o77, 0o00, 0o77, 0o00, 0o77, 0o00, 0o77, 0o00],
    [0o11, 0o11, 0o11, 0o11, 0o11, 0o11, 0o11, 0o11, 0o11, 0o11, 0o11, 0o11],
    [0o11, 0o44, 0o22, 0o11, 0o44, 0o22, 0o11, 0o44, 0o22, 0o11, 0o44, 0o22],
    [0o07, 0o07, 0o70, 0o70, 0o07, 0o07, 0o70, 0o70, 0o07, 0o07, 0o70, 0o70],
    [0o77, 0o01, 0o11, 0o25, 0o11, 0o01, 0o77, 0o01, 0o11, 0o25, 0o11, 0o01],
    [0o77, 0o07, 0o33, 0o25, 0o55, 0o61, 0o77, 0o07, 0o33, 0o25, 0o55, 0o61],
    [0o25, 0o70, 0o61, 0o52, 0o07, 0o16, 0o25, 0o70, 0o61, 0o52, 0o07, 0o16],
];

// Repeats six bits over 64 columns.
#[inline(always)]
fn repeat(six: u64) -> u64
    requires { six < 64 }
    ensures { (k : ℕ) → k < 192 → is_set (three_words result) k ≡ is_set six (k % 6) }
{
    six.wrapping_mul(0x1041_0410_4104_1041)
}

// Continues a pattern that repeats every six bits by the next 64. As 60 is a multiple of six, that is
// a rotation by four bits.
#[inline(always)]
fn next_places(word: u64) -> u64
    ensures { result ≡ next_places word }
{
    word >> 4 | word << 56
}

// Extends a pattern that repeats every six bits from its first 64 to a whole row.
#[inline(always)]
fn long_row<R: PackedRow>(word: u64) -> R
    ensures { R.bits result ≡ three_words word % 2 ^ R.room }
{
    let middle = next_places(word);
    R::of_words(word, middle, next_places(middle))
}

// Returns the modules that the mask reverses in the first 64 columns of row `y`. `long_row` extends
// them to the whole row.
#[inline(always)]
fn turned_row(mask: MaskPattern, y: usize) -> u64
    ensures { (x : ℕ) → x < 192 → is_set (three_words result) x ≡ turns mask x y }
{
    repeat(TURNED[mask.number()][y % 12] as u64)
}

// Returns the row with one bit set or cleared.
#[inline(always)]
fn put<R: PackedRow>(row: R, place: u32, set: bool) -> R
    requires { place + 1 < R.room }
    ensures place { is_set (R.bits result) place ≡ set }
    ensures others { (k : ℕ) → k ≢ place → is_set (R.bits result) k ≡ is_set (R.bits row) k }
{
    let one = R::first(place + 1).without(R::first(place));
    if set {
        return row.or(one);
    }
    row.without(one)
}

// Writes the lowest `count` bits of `bits` into the row from bit `first` on, highest first.
#[inline(always)]
fn put_bits<R: PackedRow>(row: R, first: usize, count: usize, bits: u16) -> R
    requires at_most { count ≤ 16 }
    requires inside { first + count < R.room }
    ensures { IsPutInRow (R.bits row) first count (λ i. has_bit bits (count - 1 - i))
        (R.bits result) }
{
    let mut line = row;
    for i in 0..count {
        line = put(line, (first + i) as u32, (bits >> (count - 1 - i)) % 2 == 1);
    }
    line
}

// Writes the lowest `count` bits of `bits` into column 8 from row `first` on, lowest first.
#[inline(always)]
fn put_column<R: PackedRow>(rows: &mut [R], first: usize, count: usize, bits: u16)
    requires at_most { count ≤ 16 }
    requires room { 9 < R.room }
    requires inside { first + count ≤ length rows.old }
    ensures { IsPutInColumn (map R.bits rows.old) first count (has_bit bits) (map R.bits rows.new) }
{
    for i in 0..count {
        rows[first + i] = put(rows[first + i], 8, (bits >> i) % 2 == 1);
    }
}

// Writes both copies of Normal's format word, and the dark module.
#[inline(always)]
fn decide_normal<R: PackedRow>(layer: Layer, rows: &mut [R])
    requires normal { is_micro layer.version ≡ false }
    requires room { layer.width + 3 ≤ R.room }
    requires length { length rows.old ≡ layer.width }
    ensures shown { AreDecided layer.version layer.word
        (map R.bits rows.old) (map R.bits rows.new) }
{
    let Layer { width, word, .. } = layer;
    put_column(rows, 0, 6, word);
    put_column(rows, 7, 1, word >> 6);
    put_column(rows, width - 7, 7, word >> 8);
    put_column(rows, width - 8, 1, 1);
    let left = put_bits(rows[8], 0, 6, word >> 9);
    let middle = put_bits(left, 7, 2, word >> 7);
    rows[8] = put_bits(middle, width - 8, 8, word);
}

// Writes the one copy of Micro's format word.
#[inline(always)]
fn decide_micro<R: PackedRow>(layer: Layer, rows: &mut [R])
    requires micro { is_micro layer.version ≡ true }
    requires room { layer.width + 3 ≤ R.room }
    requires length { length rows.old ≡ layer.width }
    ensures shown { AreDecided layer.version layer.word
        (map R.bits rows.old) (map R.bits rows.new) }
{
    put_column(rows, 1, 7, layer.word);
    rows[8] = put_bits(rows[8], 1, 8, layer.word >> 7);
}

// Writes the bits that no mask changes: the format word and the dark module.
#[inline(always)]
fn decide_rows<R: PackedRow>(layer: Layer, rows: &mut [R])
    requires room { layer.width + 3 ≤ R.room }
    requires length { length rows.old ≡ layer.width }
    ensures shown { AreDecided layer.version layer.word
        (map R.bits rows.old) (map R.bits rows.new) }
{
    match layer.version {
        Version::Normal(_) => decide_normal(layer, rows),
        Version::Micro(_) => decide_micro(layer, rows),
    }
}

// Writes all rows, with the modules reversed that the mask reverses.
fn turn_rows<R: PackedRow>(modules: &PackedModules<'_, R>, mask: MaskPattern, rows: &mut [R])
    requires length { length rows.old ≡ modules.now.width }
    ensures shown { (x y : ℕ) → x < modules.now.width → y < modules.now.width
        → dark_in (map R.bits rows.new) x y
        ≡ turned_if (dark_in modules.now.free.rows x y && turns mask x y)
        (dark_in modules.now.dark.rows x y) }
    ensures fits { (y : ℕ)
        → FitsWidth modules.now.width (slice_index_or (map R.bits rows.new) y 0) }
{
    for y in 0..modules.width {
        let places = modules.free.row(y).and(long_row(turned_row(mask, y)));
        rows[y] = modules.dark.row(y).xor(places);
    }
}

/// Writes all rows under a mask, with its format word.
pub(super) fn mask_rows<R: PackedRow>(
    modules: &PackedModules<'_, R>,
    mask: MaskPattern,
    masked: &mut [R],
)
    requires mask_exists { IsTrue (exists_in modules.now.version mask) }
    requires length { length masked.old ≡ modules.now.width }
    ensures shown { Shows modules.now.width (map R.bits masked.new)
        (masked_dark modules.now.version
        (format_word modules.now.version modules.now.ec_level mask) mask
        modules.now.dark.rows modules.now.free.rows) }
    ensures square { IsSquare R.room
        (record { width = modules.now.width; rows = map R.bits masked.new }) }
{
    let layer = Layer {
        version: modules.version,
        width: modules.width,
        word: format_word(modules.version, modules.ec_level, mask),
        mask,
    };
    turn_rows(modules, mask, masked);
    decide_rows(layer, masked);
}
