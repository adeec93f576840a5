//! Areas of a symbol: rectangles of modules, and what they cover.

ghost use Rattle.std.specs.Prelude.{◌≡◌, IsTrue, IfSome, is_some};
ghost use Rattle.std.specs.List.{list_all};
ghost use Rattle.qrcode_types.specs.Versions.{is_valid, side};
ghost use Rattle.qrcode_damage.specs.Areas.{is_in, is_within, lies_in, is_inside, covers};

use qrcode_types::types::Version;
use qrcode_types::versions::side;
use std::marker::Model;

/// A rectangle of modules.
#[repr(C)]
#[derive(Debug, PartialEq, Eq, Copy, Clone)]
pub struct Rectangle {
    /// The leftmost column.
    pub left: usize,
    /// The uppermost row.
    pub top: usize,
    /// The number of columns.
    pub width: usize,
    /// The number of rows.
    pub height: usize,
}

// Returns whether the rectangle contains column `x` and row `y`.
fn is_in(rectangle: Rectangle, x: usize, y: usize) -> bool
    ensures { result ≡ is_in rectangle x y }
{
    rectangle.left <= x
        && x - rectangle.left < rectangle.width
        && rectangle.top <= y
        && y - rectangle.top < rectangle.height
}

// Returns whether `count` modules from `start` on are at least one, and all below `side`.
fn is_within(side: usize, start: usize, count: usize) -> bool
    ensures { result ≡ is_within side start count }
{
    0 < count && count <= side && start <= side - count
}

// Returns whether a rectangle is not empty and lies inside a symbol with this side.
fn lies_in(side: usize, rectangle: Rectangle) -> bool
    ensures { result ≡ lies_in side rectangle }
{
    is_within(side, rectangle.left, rectangle.width)
        && is_within(side, rectangle.top, rectangle.height)
}

// Returns whether all rectangles are not empty and lie inside a symbol with this side.
fn are_inside(side: usize, rectangles: &[Rectangle]) -> bool
    ensures { result ≡ list_all (lies_in side) rectangles.now }
{
    rectangles.iter().all(|rectangle| lies_in(side, *rectangle))
}

/// An area of modules: the union of some rectangles.
#[derive(Drop)]
pub struct Area<'a> {
    rectangles: &'a [Rectangle],
}

impl<'a> Model for Area<'a> {
    ghost use Rattle.std.specs.Prelude.{List};
    ghost use Rattle.qrcode_damage.specs.declared.areas.Rectangle.{Rectangle};

    ghost Value = { List Rectangle };

    ghost view = { λ area. area.rectangles.now };
}

impl<'a> Area<'a> {
    /// Creates the area of `rectangles`, or `None` if there are none, or one of them is empty or
    /// leaves the symbol of this version.
    pub fn new(version: Version, rectangles: &'a [Rectangle]) -> Option<Area<'a>>
        requires { IsTrue (is_valid version) }
        ensures value { IfSome result (λ area. area ≡ rectangles.now) }
        ensures inside { is_some result ≡ is_inside (side version) rectangles.now }
    {
        if rectangles.is_empty() || !are_inside(side(version), rectangles) {
            return None;
        }
        Some(Area { rectangles })
    }

    /// Creates the area of `rectangles`, wherever they lie.
    pub fn of(rectangles: &'a [Rectangle]) -> Area<'a>
        ensures { result ≡ rectangles.now }
    {
        Area { rectangles }
    }

    /// Returns whether the area covers the module in column `x` and row `y`.
    pub fn has(&self, x: usize, y: usize) -> bool
        ensures { result ≡ covers self.now x y }
    {
        self.rectangles
            .iter()
            .any(|rectangle| is_in(*rectangle, x, y))
    }
}
