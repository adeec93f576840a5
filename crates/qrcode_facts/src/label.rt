//! A canvas of your own: the bars that a label printer fills.

ghost use Rattle.std.proofs.Common.{rules};
ghost use Rattle.std.specs.Prelude.{◌≡◌, ◌+◌, ◌^◌, ◌<◌, ◌==◌, ◌&&◌, List, [], reverse, IfOk, IfErr, OnOk, IsOkUnless};
ghost use Rattle.qrcode_types.specs.declared.types.EcLevel.TheVariants.{M};
ghost use Rattle.qrcode_types.specs.declared.types.QrError.TheVariants.{OutOfMemory};
ghost use Rattle.qrcode_bits.specs.Choice.{IsRefused};
ghost use Rattle.qrcode.specs.Pictures.{layout_in};
ghost use Rattle.qrcode_facts.specs.Bars.{with_bar, bars_of, goes_on, IsLabel};

use qrcode::QrCode;
use qrcode::render::{Canvas, Pixel};
use qrcode::types::{Color, QrResult};
use std::alloc::Global;

/// A filled rectangle of printer dots.
#[derive(Clone, Copy, Debug)]
pub struct Bar {
    /// Dots to the left of the bar.
    pub left: u32,
    /// Dots above the bar.
    pub top: u32,
    /// Its width in dots.
    pub width: u32,
    /// Its height in dots.
    pub height: u32,
}

impl Bar {
    // Whether `other` begins where this bar ends, in the same rows.
    fn goes_on(&self, other: &Bar) -> bool
        ensures { result ≡ goes_on self.now other.now }
    {
        self.top == other.top
            && self.height == other.height
            && u64::from(self.left) + u64::from(self.width) == u64::from(other.left)
    }
}

/// Encodes `bytes` at level M, in the smallest Normal version that holds them, and returns the bars
/// to print: 4 by 4 dots per module, one bar for each run of dark modules in a row.
///
/// Errors: `DataTooLong` if no Normal version holds `bytes`; `OutOfMemory` if memory runs out.
pub fn label_bars(alloc: Global, bytes: &[u8]) -> QrResult<Vec<Bar>>
    ensures bars { IfOk result (λ bars. IsLabel bytes.now bars.items) }
    ensures causes { IfErr result (IsRefused M bytes.now) }
{
    let code = QrCode::new(alloc, bytes)?;
    bars_of(alloc, &code)
}

// Draws the bars of `code`.
fn bars_of(alloc: Global, code: &QrCode) -> QrResult<Vec<Bar>>
    ensures bars { IfOk result (λ bars.
        bars.items ≡ bars_of (layout_in 4 code.now.version) code.now.modules) }
    ensures memory { IsOkUnless result OutOfMemory }
{
    code.render::<Dot>().build(alloc)
}

/// A dot of a label printer, which prints in one colour.
#[derive(Clone, Copy)]
pub struct Dot;

impl Pixel for Dot {
    type Image = Vec<Bar>;

    type Canvas = Label;

    ghost unit = { (4, 4) };

    ghost unit_positive = { Prim.search rules };

    ghost is_default_color = { λ _ _. Unit {0} };

    fn default_unit_size() -> (u32, u32) {
        (4, 4)
    }

    fn default_color(_color: Color) -> Dot {
        Dot
    }
}

/// A label that is being drawn.
#[derive(Drop)]
pub struct Label {
    width: u32,
    height: u32,
    bars: Vec<Bar>,
    ghost width_fits: { width < 2 ^ 32 },
    ghost height_fits: { height < 2 ^ 32 },
}

impl Canvas for Label {
    ghost use Rattle.std.specs.Prelude.{◌≡◌, List, [], reverse};
    ghost use Rattle.qrcode_render.specs.Setting.{layout_of};
    ghost use Rattle.qrcode_facts.specs.Bars.{with_bar, bars_of};
    ghost use Rattle.qrcode_facts.specs.declared.label.Bar.{Bar};

    type Pixel = Dot;

    type Image = Vec<Bar>;

    ghost Drawing = { List Bar };

    ghost shown = { λ label. reverse label.bars.items };

    ghost across = { λ label. label.width };

    ghost down = { λ label. label.height };

    ghost start = { λ _ _ _ _. [] };

    ghost pixel_step = { λ x y. with_bar x y 1 1 };

    ghost rect_step = { with_bar };

    ghost is_end = { λ bars image. image.items ≡ reverse bars };

    ghost is_picture = { λ s image. image.items ≡ bars_of (layout_of s) s.content };

    ghost sides_fit = { λ label. (label.width_fits, label.height_fits) };

    fn new(
        alloc: Global,
        width: u32,
        height: u32,
        _dark_pixel: Dot,
        _light_pixel: Dot,
    ) -> QrResult<Label> {
        Ok(Label {
            width,
            height,
            bars: Vec::new(alloc),
        })
    }

    fn draw_dark_pixel(&mut self, x: u32, y: u32) -> QrResult<()> {
        self.draw_dark_rect(x, y, 1, 1)
    }

    fn draw_dark_rect(&mut self, left: u32, top: u32, width: u32, height: u32) -> QrResult<()> {
        let bar = Bar {
            left,
            top,
            width,
            height,
        };
        push_bar(&mut self.bars, bar)
    }

    fn into_image(self) -> QrResult<Vec<Bar>> {
        Ok(self.bars)
    }
}

// Appends `bar`, or widens the last bar if `bar` begins where that ends.
fn push_bar(bars: &mut Vec<Bar>, bar: Bar) -> QrResult<()>
    requires { bar.left + bar.width < 2 ^ 32 }
    ensures draws { OnOk result (reverse bars.new.items
        ≡ with_bar bar.left bar.top bar.width bar.height (reverse bars.old.items)) }
    ensures memory { IsOkUnless result OutOfMemory }
{
    match bars.pop() {
        Some(last) if last.goes_on(&bar) => {
            let width = last.width + bar.width;
            bars.push(Bar { width, ..last })?;
        }
        Some(last) => {
            bars.push(last)?;
            bars.push(bar)?;
        }
        None => bars.push(bar)?,
    }
    Ok(())
}
