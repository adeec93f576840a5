//! The renderer's settings: colours, quiet zone and module size.

ghost use Rattle.std.specs.Prelude.{◌≡◌, ◌+◌, ◌-◌, ◌*◌, ◌^◌, ◌<◌, ◌≤◌, IsTrue, max, if◌then◌else◌};
ghost use Rattle.qrcode_render.specs.Grid.{all_columns, all_rows, pixels_of};
ghost use Rattle.qrcode_render.specs.Setting.{side_of, fits, picture_of, square_of, least_size, greatest_size, IsLeastSize, IsGreatestSize};

use crate::grid::Grid;
use crate::{Modules, Pixel, Renderer};

impl<'a, P: Pixel> Renderer<'a, P> {
    /// Sets the pixel for dark modules.
    pub fn dark_color(&mut self, color: P) -> &mut Self
        ensures same { result.ghost_name ≡ self.entry.ghost_name }
        ensures sets { result.now ≡ record self.old { dark = color } }
    {
        self.dark_color = color;
        self
    }

    /// Sets the pixel for light modules.
    pub fn light_color(&mut self, color: P) -> &mut Self
        ensures same { result.ghost_name ≡ self.entry.ghost_name }
        ensures sets { result.now ≡ record self.old { light = color } }
    {
        self.light_color = color;
        self
    }

    /// Switches the quiet zone on or off. A module size that was set before stays as it is.
    pub fn quiet_zone(&mut self, has_quiet_zone: bool) -> &mut Self
        ensures same { result.ghost_name ≡ self.entry.ghost_name }
        ensures sets { result.now ≡ record self.old {
          zone = if has_quiet_zone then self.old.whole_zone else 0;
        } }
    {
        self.quiet_zone = if has_quiet_zone {
            self.whole_quiet_zone
        } else {
            0
        };
        self
    }

    /// Sets the quiet zone to `modules` modules on each side and switches it on. A module size that
    /// was set before stays as it is.
    ///
    /// The standard asks for four modules, and for two around a Micro symbol. The picture fits, as
    /// `fits` says, if it has up to 65,536 modules along a side, quiet zone included, and a module
    /// has up to 65,535 pixels.
    pub fn quiet_zone_modules(&mut self, modules: u32) -> &mut Self
        ensures same { result.ghost_name ≡ self.entry.ghost_name }
        ensures sets { result.now ≡ record self.old { zone = modules; whole_zone = modules } }
        ensures fits { self.old.count + 2 * modules ≤ 2 ^ 16 → self.old.across < 2 ^ 16
            → self.old.down < 2 ^ 16 → IsTrue (fits result.now) }
    {
        self.quiet_zone = modules;
        self.whole_quiet_zone = modules;
        self
    }

    /// Sets the width and height of a module in pixels. 0 counts as 1.
    ///
    /// The picture fits, as `fits` says, if it has up to 65,536 modules along a side, quiet zone
    /// included, and a module has up to 65,535 pixels.
    pub fn module_dimensions(&mut self, width: u32, height: u32) -> &mut Self
        ensures same { result.ghost_name ≡ self.entry.ghost_name }
        ensures sets { result.now
            ≡ record self.old { across = max width 1; down = max height 1 } }
        ensures fits { side_of self.old ≤ 2 ^ 16 → width < 2 ^ 16 → height < 2 ^ 16
            → IsTrue (fits result.now) }
    {
        self.module_width = width.max(1);
        self.module_height = height.max(1);
        self
    }

    /// Sets the width and height of a module to `width` pixels each. 0 counts as 1.
    ///
    /// The picture fits, as `fits` says, if it has up to 65,536 modules along a side, quiet zone
    /// included, and a module has up to 65,535 pixels.
    pub fn module_size(&mut self, width: u32) -> &mut Self
        ensures same { result.ghost_name ≡ self.entry.ghost_name }
        ensures sets { result.now
            ≡ record self.old { across = max width 1; down = max width 1 } }
        ensures fits { side_of self.old ≤ 2 ^ 16 → width < 2 ^ 16 → IsTrue (fits result.now) }
    {
        self.module_dimensions(width, width)
    }

    // Returns the modules along a side of the picture, including the quiet zone if it is on.
    fn side(&self) -> u32
        requires { side_of self.now < 2 ^ 32 }
        ensures { result ≡ side_of self.now }
    {
        self.modules_count + 2 * self.quiet_zone
    }

    /// Sets the smallest module width and height with which the picture is at least `width` by
    /// `height` pixels, including the quiet zone if it is on at this call. The picture then fits,
    /// as `fits` says.
    ///
    /// The picture must have from 1 to 4,294,967,295 modules along a side. These plus `width`, and
    /// these plus `height`, must be at most 4,294,967,296.
    #[tactic(auto, using(crate::proofs::Sizes::is_least_size))]
    pub fn min_dimensions(&mut self, width: u32, height: u32) -> &mut Self
        requires at_least { 1 ≤ side_of self.old }
        requires side_fits { side_of self.old < 2 ^ 32 }
        requires across_fits { width + side_of self.old - 1 < 2 ^ 32 }
        requires down_fits { height + side_of self.old - 1 < 2 ^ 32 }
        ensures same { result.ghost_name ≡ self.entry.ghost_name }
        ensures sets { result.now ≡ record self.old {
          across = least_size (side_of self.old) width;
          down = least_size (side_of self.old) height;
        } }
        ensures least_across { IsLeastSize (side_of self.old) width result.now.across }
        ensures least_down { IsLeastSize (side_of self.old) height result.now.down }
        ensures fits { IsTrue (fits result.now) }
    {
        let side = self.side();
        let more = side - 1;
        self.module_dimensions((width + more) / side, (height + more) / side)
    }

    /// Sets the smallest module width and height with which the picture is at least `width` by
    /// `width` pixels, as `min_dimensions` does. The picture then fits, as `fits` says.
    ///
    /// The picture must have from 1 to 4,294,967,295 modules along a side. These plus `width` must
    /// be at most 4,294,967,296.
    pub fn min_width(&mut self, width: u32) -> &mut Self
        requires at_least { 1 ≤ side_of self.old }
        requires side_fits { side_of self.old < 2 ^ 32 }
        requires across_fits { width + side_of self.old - 1 < 2 ^ 32 }
        ensures same { result.ghost_name ≡ self.entry.ghost_name }
        ensures sets { result.now ≡ record self.old {
          across = least_size (side_of self.old) width;
          down = least_size (side_of self.old) width;
        } }
        ensures least { IsLeastSize (side_of self.old) width result.now.across }
        ensures fits { IsTrue (fits result.now) }
    {
        self.min_dimensions(width, width)
    }

    /// Sets the largest module width and height with which the picture is at most `width` by
    /// `height` pixels, including the quiet zone if it is on at this call. Each is at least 1, even
    /// if the picture is then larger. The picture then fits, as `fits` says.
    ///
    /// The picture must have from 1 to 4,294,967,295 modules along a side.
    #[tactic(auto, using(crate::proofs::Sizes::is_greatest_size))]
    pub fn max_dimensions(&mut self, width: u32, height: u32) -> &mut Self
        requires at_least { 1 ≤ side_of self.old }
        requires side_fits { side_of self.old < 2 ^ 32 }
        ensures same { result.ghost_name ≡ self.entry.ghost_name }
        ensures sets { result.now ≡ record self.old {
          across = greatest_size (side_of self.old) width;
          down = greatest_size (side_of self.old) height;
        } }
        ensures greatest_across { IsGreatestSize (side_of self.old) width result.now.across }
        ensures greatest_down { IsGreatestSize (side_of self.old) height result.now.down }
        ensures fits { IsTrue (fits result.now) }
    {
        let side = self.side();
        self.module_dimensions(width / side, height / side)
    }

    /// Returns whether the modules and the pixels along each side of the picture, including the
    /// quiet zone if it is on, are at most 4,294,967,295.
    pub fn fits(&self) -> bool
        ensures { result ≡ fits self.now }
    {
        let side = self.modules_count as u64 + 2 * self.quiet_zone as u64;
        side < 1 << 32
            && side * (self.module_width as u64) < 1 << 32
            && side * (self.module_height as u64) < 1 << 32
    }

    /// Returns the modules as a grid of cells, including the quiet zone if it is on. The picture
    /// must fit, as `fits` says.
    pub fn grid(&self) -> Grid<'a>
        requires { IsTrue (fits self.now) }
        ensures pixels { pixels_of result ≡ picture_of self.now }
        ensures across { all_columns result ≡ side_of self.now }
        ensures down { all_rows result ≡ side_of self.now }
    {
        self.modules().grid()
    }

    /// Returns the modules, including the quiet zone if it is on.
    pub fn modules(&self) -> Modules<'a>
        requires { IsTrue (fits self.now) }
        ensures { result ≡ square_of self.now }
    {
        Modules {
            content: self.content,
            count: self.modules_count,
            zone: self.quiet_zone,
            width: self.module_width,
            height: self.module_height,
        }
    }

    /// Returns the pixels for dark and for light modules.
    pub fn colors(&self) -> (P, P)
        ensures dark { result.0 ≡ self.now.dark }
        ensures light { result.1 ≡ self.now.light }
    {
        (self.dark_color, self.light_color)
    }
}
