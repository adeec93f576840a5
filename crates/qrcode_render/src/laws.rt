//! Theorems about pixels, as contracts of functions that do nothing.

ghost use Rattle.std.specs.Prelude.{◌≡◌, ◌↔◌, [], Some, IsTrue};
ghost use Rattle.std.specs.Cmp.Lexicographic.{slice_cmp};
ghost use Rattle.std.specs.Ordering.{nat_cmp};
ghost use Rattle.std.specs.declared.cmp.Ordering.TheVariants.{Equal};
ghost use Rattle.qrcode_render.specs.declared.image.Luma.{Luma};
ghost use Rattle.qrcode_render.specs.declared.image.LumaA.{LumaA};
ghost use Rattle.qrcode_render.specs.declared.image.Rgb.{Rgb};
ghost use Rattle.qrcode_render.specs.declared.image.Rgba.{Rgba};
ghost use Rattle.qrcode_render.specs.declared.pic.Color as pic;
ghost use Rattle.qrcode_render.specs.declared.string.Str.{Str};
ghost use Rattle.qrcode_render.specs.declared.svg.Color as svg;
ghost use Rattle.qrcode_render.specs.declared.unicode.Dense1x2.{Dense1x2};

use crate::image::{Luma, LumaA, Rgb, Rgba};
use crate::string::Str;
use crate::unicode::Dense1x2;
use crate::{pic, svg};
use std::hash::Hash;

/// Theorem: two pixels are equal by `==` exactly when they are the same, or, for those that are
/// texts, when these have the same bytes. All PIC colours are equal.
pub fn equality<'a>()
    ensures halves { (a b : Dense1x2) → IsTrue (⟦<Dense1x2 as PartialEq>⟧.eq a b) ↔ (a ≡ b) }
    ensures luma { (a b : Luma) → IsTrue (⟦<Luma as PartialEq>⟧.eq a b) ↔ (a ≡ b) }
    ensures luma_a { (a b : LumaA) → IsTrue (⟦<LumaA as PartialEq>⟧.eq a b) ↔ (a ≡ b) }
    ensures rgb { (a b : Rgb) → IsTrue (⟦<Rgb as PartialEq>⟧.eq a b) ↔ (a ≡ b) }
    ensures rgba { (a b : Rgba) → IsTrue (⟦<Rgba as PartialEq>⟧.eq a b) ↔ (a ≡ b) }
    ensures pic { (a b : pic.Color) → IsTrue (⟦<pic::Color as PartialEq>⟧.eq a b) }
    ensures svg { (a b : svg.Color) → IsTrue (⟦<svg::Color<'a> as PartialEq>⟧.eq a b)
        ↔ (a.0.now ≡ b.0.now) }
    ensures texts { (a b : Str) → IsTrue (⟦<Str<'a> as PartialEq>⟧.eq a b) ↔ (a.0.now ≡ b.0.now) }
{}

/// Theorem: SVG colours are ordered as their texts are, byte by byte, and the default one is the
/// empty text. Those with the same text give a hasher the same input. All PIC colours are equal in
/// the order and give a hasher the same input.
pub fn order<'a>()
    ensures svg { (a b : svg.Color) → ⟦<svg::Color<'a> as Ord>⟧.cmp a b
        ≡ slice_cmp nat_cmp a.0.now b.0.now }
    ensures svg_partial { (a b : svg.Color) → ⟦<svg::Color<'a> as PartialOrd>⟧.partial_cmp a b
        ≡ Some (slice_cmp nat_cmp a.0.now b.0.now) }
    ensures svg_default { (a : svg.Color) → ⟦<svg::Color<'a> as Default>⟧.is_default a
        → a.0.now ≡ [] }
    ensures svg_hash { (a b : svg.Color) → a.0.now ≡ b.0.now
        → ⟦<svg::Color<'a> as Hash>⟧.hash_input a ≡ ⟦<svg::Color<'a> as Hash>⟧.hash_input b }
    ensures pic { (a b : pic.Color) → ⟦<pic::Color as Ord>⟧.cmp a b ≡ Equal }
    ensures pic_partial { (a b : pic.Color) → ⟦<pic::Color as PartialOrd>⟧.partial_cmp a b
        ≡ Some Equal }
    ensures pic_hash { (a b : pic.Color) → ⟦<pic::Color as Hash>⟧.hash_input a
        ≡ ⟦<pic::Color as Hash>⟧.hash_input b }
{}
