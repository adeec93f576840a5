//! Pixels that are dark or light.

ghost use Rattle.std.specs.Prelude.{◌≡◌, ◌+◌, ◌*◌, ◌^◌, ◌<◌, ◌≤◌, length, map, not, IfOk};
ghost use Rattle.qrcode_render.specs.Bitmap.{Bitmap};
ghost use Rattle.qrcode_scan.specs.Squares.{has_dark_edge, inverted};
ghost use Rattle.qrcode_scan.specs.declared.pixels.Unscanned.TheVariants.{OutOfMemory};

use std::alloc::{AllocError, AllocFailed, Global};
use std::marker::Model;

/// The most pixels along a side.
pub(crate) const GREATEST_SIDE: usize = 65535;

/// Why a picture has no pixels.
#[derive(Debug, PartialEq, Eq, Copy, Clone)]
pub enum Unscanned {
    /// It is neither a PBM file, a raw PGM file (P5) nor a text of half blocks.
    NotPicture,
    /// The picture has no pixel, or more than 65,535 along a side (in half blocks 4,096).
    NoSide,
    /// The maximum grey of a PGM file is not from 1 to 255.
    NoGrey,
    /// Something that is neither a pixel nor white space comes before the last pixel.
    NotPixel,
    /// The file ends before its last pixel.
    TooShort,
    /// Memory ran out.
    OutOfMemory,
}

impl From<AllocError> for Unscanned {
    ghost from_gives = { λ _ e. e ≡ OutOfMemory };

    fn from(_error: AllocError) -> Unscanned {
        Unscanned::OutOfMemory
    }
}

impl<T: Drop> From<AllocFailed<T>> for Unscanned {
    ghost from_gives = { λ _ e. e ≡ OutOfMemory };

    fn from(_error: AllocFailed<T>) -> Unscanned {
        Unscanned::OutOfMemory
    }
}

/// Pixels row by row, dark or light, at most 65,535 along a side.
#[derive(Drop)]
pub struct Pixels {
    across: usize,
    down: usize,
    marks: Vec<bool>,
}

impl Model for Pixels {
    ghost use Rattle.std.specs.Prelude.{◌≡◌, ◌*◌, ◌≤◌, length};
    ghost use Rattle.qrcode_render.specs.Bitmap.{Bitmap};

    ghost Value = { Bitmap };

    ghost view = { λ p. record { across = p.across; down = p.down; marks = p.marks.items } };

    ghost invariant = { λ p. (length p.marks.items ≡ p.across * p.down)
        × (p.across ≤ 65535) × (p.down ≤ 65535) };
}

impl Pixels {
    /// Returns `across` by `down` pixels, row by row, `true` for dark.
    pub(crate) fn new(across: usize, down: usize, marks: Vec<bool>) -> Pixels
        requires across { across ≤ 65535 }
        requires down { down ≤ 65535 }
        requires length { length marks.items ≡ across * down }
        ensures { result ≡ record { across = across; down = down; marks = marks.items } }
    {
        Pixels {
            across,
            down,
            marks,
        }
    }

    /// Returns the width and the height in pixels.
    pub fn sides(&self) -> (usize, usize)
        ensures across { result.0 ≡ self.now.across }
        ensures down { result.1 ≡ self.now.down }
        ensures at_most { (result.0 ≤ 65535) × (result.1 ≤ 65535) }
    {
        (self.across, self.down)
    }

    /// Returns the pixels, row by row, `true` for dark.
    pub fn marks(&self) -> &[bool]
        ensures value { result.now ≡ self.now.marks }
        ensures length { length result.now ≡ self.now.across * self.now.down }
    {
        &self.marks
    }

    /// Returns whether the first row is all dark: then dark and light may be swapped.
    pub fn has_dark_edge(&self) -> bool
        ensures { result ≡ has_dark_edge self.now }
    {
        self.marks.iter().take(self.across).all(|mark| *mark)
    }

    /// Returns the pixels with dark and light swapped.
    ///
    /// Errors: only `AllocError`, if memory runs out.
    pub fn inverted(&self, alloc: Global) -> Result<Pixels, AllocError>
        ensures { IfOk result (λ pixels. pixels ≡ inverted self.now) }
    {
        let marks = exchanged(alloc, &self.marks)?;
        Ok(Pixels::new(self.across, self.down, marks))
    }
}

// Swaps dark and light.
fn exchanged(alloc: Global, marks: &[bool]) -> Result<Vec<bool>, AllocError>
    ensures value { IfOk result (λ turned. turned.items ≡ map not marks.now) }
    ensures length { IfOk result (λ turned. length turned.items ≡ length marks.now) }
{
    marks.iter().map(|mark| !*mark).collect(alloc)
}
