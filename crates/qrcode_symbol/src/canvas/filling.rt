//! Draws codewords into the empty modules of a canvas, bit by bit along the walk.

ghost use Rattle.std.specs.Prelude.{◌≡◌, ◌+◌, ◌-◌, ◌*◌, ◌%◌, ◌<◌, ◌≤◌, length, slice_get, IsTrue};
ghost use Rattle.qrcode_types.specs.Versions.{is_valid, side};
ghost use Rattle.qrcode_layout.specs.Stream.{right_column};
ghost use Rattle.qrcode_symbol.specs.Canvas.{with_bits_drawn};
ghost use Rattle.qrcode_symbol.specs.Filling.{filled_from, drawn_if, left_if, is_empty_at, row_of_step, row_index};

use super::Module;
use super::codewords::Codewords;
use qrcode_layout::figures::color_of;
use qrcode_layout::walk::right_column;
use qrcode_types::types::Version;
use qrcode_types::versions::side;

// A pair of columns of the walk. It goes upwards if the number of the pair is even, otherwise
// downwards.
#[derive(Copy, Clone)]
struct Pair {
    version: Version,
    width: usize,
    number: usize,
    right: usize,
    ghost valid: { IsTrue (is_valid version) },
    ghost wide: { width ≡ side version },
    ghost small: { width ≤ 177 },
    ghost inside: { 2 * number + 3 ≤ width },
    ghost column: { right ≡ right_column version number },
    ghost at_least: { 1 ≤ right },
    ghost at_most: { right < width },
}

impl Pair {
    // Returns the index of the right module in the row of a step.
    #[inline(always)]
    fn index(self, step: usize) -> usize
        requires { step < self.width }
        ensures value { result ≡ row_index self.version self.number step }
        ensures some { 1 ≤ result }
        ensures inside { result < side self.version * side self.version }
        ensures small { result < 40000 }
    {
        let row = if self.number % 2 == 0 {
            self.width - 1 - step
        } else {
            step
        };
        row * self.width + self.right
    }
}

// Draws the next bit at an index, if there is one and the module is empty.
fn draw_bit(codewords: &mut Codewords<'_>, modules: &mut [Module], index: usize)
    requires { index < length modules.old }
    ensures rest { codewords.new ≡ left_if (is_empty_at modules.old index) codewords.old }
    ensures after { modules.new
        ≡ drawn_if (is_empty_at modules.old index) (slice_get codewords.old 0) modules.old index }
{
    let Module::Empty = modules[index] else {
        return;
    };
    if let Some(bit) = codewords.next() {
        modules[index] = Module::Unmasked(color_of(bit));
    }
}

// Draws the next bits in a pair of columns.
fn draw_pair(pair: Pair, codewords: &mut Codewords<'_>, modules: &mut [Module])
    requires { length modules.old ≡ side pair.version * side pair.version }
    ensures { filled_from pair.version codewords.new modules.new
        (2 * side pair.version * (pair.number + 1))
        ≡ filled_from pair.version codewords.old modules.old
        (2 * side pair.version * pair.number) }
{
    for step in 0..pair.width {
        let index = pair.index(step);
        draw_bit(codewords, modules, index);
        draw_bit(codewords, modules, index - 1);
    }
}

/// Draws codewords into the empty modules, in the order of the walk: through pairs of columns,
/// alternately upwards and downwards.
pub(super) fn draw_codewords(version: Version, codewords: Codewords<'_>, modules: &mut [Module])
    requires valid { IsTrue (is_valid version) }
    requires square { length modules.old ≡ side version * side version }
    ensures { modules.new ≡ with_bits_drawn version codewords.entry modules.old }
{
    let mut codewords = codewords;
    let width = side(version);
    for number in 0..width / 2 {
        let right = right_column(version, width, number);
        let pair = Pair {
            version,
            width,
            number,
            right,
        };
        draw_pair(pair, &mut codewords, modules);
    }
}
