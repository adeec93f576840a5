//! Rectangles in a drawing.

ghost use Rattle.std.specs.Prelude.{◌≡◌, ◌+◌, ◌≤◌};
ghost use Rattle.qrcode_sheets.specs.Pasted.{is_in_place};
ghost use Rattle.qrcode_sheets.specs.Places.{fitted, square, HasPixels};

/// A rectangle in pixels, or in the units that overlays are placed in.
#[derive(Clone, Copy)]
pub struct Region {
    pub left: u32,
    pub top: u32,
    pub width: u32,
    pub height: u32,
}

impl Region {
    /// Whether the pixel in column `x` and row `y` is in this place.
    pub fn has(&self, x: usize, y: usize) -> bool
        ensures { result ≡ is_in_place self.now x y }
    {
        self.left as usize <= x
            && x - (self.left as usize) < self.width as usize
            && self.top as usize <= y
            && y - (self.top as usize) < self.height as usize
    }

    /// Returns the square in the middle: `size` pixels along its side, one more if it could not be
    /// centred across otherwise, and fewer if there is no room.
    pub fn square(self, size: u32) -> Region
        requires { HasPixels self }
        ensures value { result ≡ square self size }
        ensures right { result.left + result.width ≤ self.left + self.width }
        ensures bottom { result.top + result.height ≤ self.top + self.height }
    {
        let size = size.min(self.width);
        let size = (size + (self.width - size) % 2).min(self.height);
        Region {
            left: self.left + (self.width - size) / 2,
            top: self.top + (self.height - size) / 2,
            width: size,
            height: size,
        }
    }

    /// Returns the largest rectangle in the middle with the proportions `across` to `down`, rounded
    /// down to whole pixels, at least 1.
    pub fn fitted(self, across: u16, down: u16) -> Region
        requires { HasPixels self }
        ensures value { result ≡ fitted self across down }
        ensures pixels { HasPixels result }
        ensures left { self.left ≤ result.left }
        ensures right { result.left + result.width ≤ self.left + self.width }
        ensures top { self.top ≤ result.top }
        ensures bottom { result.top + result.height ≤ self.top + self.height }
    {
        let (across, down) = (across.max(1) as u64, down.max(1) as u64);
        let width = (across * self.height as u64 / down).clamp(1, self.width as u64) as u32;
        let height = (down * self.width as u64 / across).clamp(1, self.height as u64) as u32;
        Region {
            left: self.left + (self.width - width) / 2,
            top: self.top + (self.height - height) / 2,
            width,
            height,
        }
    }
}
