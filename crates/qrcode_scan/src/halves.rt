//! Reads texts of half blocks.

ghost use Rattle.std.specs.Prelude.{◌≡◌, ◌⊎◌, ℕ, ◌*◌, ◌<◌, List, ◌≤◌, ◌++◌, [], Some, false, not, length, slice_index_or, IfOk, IfErr, OnOk, None};
ghost use Rattle.std.specs.List.{list_all};
ghost use Rattle.qrcode_scan.specs.Halves.{IsHalf, AreHalves, IsHalfBlocks, IsHalvesRefusal, are_same, behind_colour, longest, rows_from, padded, without_last};
ghost use Rattle.qrcode_scan.specs.declared.pixels.Unscanned.TheVariants.{NotPicture, NoSide, OutOfMemory};
ghost use Rattle.qrcode_scan.specs.declared.halves.Half.{Half};

use crate::pixels::{Pixels, Unscanned};
use std::alloc::{AllocError, Global};

// The most pixels along a side of a text of half blocks: 22 for each module of the largest symbol
// with its quiet zone. Bounds the memory that short lines can take.
const GREATEST_HALVES: usize = 4096;

// What a text of half blocks consists of.
#[derive(Clone, Copy)]
pub(crate) enum Half {
    // Two pixels, the upper one first, `true` for dark.
    Pair(bool, bool),
    // The end of a line.
    End,
    // A carriage return, which shows nothing.
    Return,
    // A control sequence that sets colours, which shows nothing.
    Colours,
}

/// Reads the pixels of a text of half blocks: each line is two rows of pixels. Terminal control
/// sequences that set colours are skipped, and short lines are filled up with light pixels. If
/// there is one row more than columns, and the last row is all light or all dark, it is left out.
///
/// Errors: `NotPicture` if `text` is not such a text; `NoSide` if there is no pixel, or more than
/// 4,096 along a side; `OutOfMemory` if memory runs out.
pub(crate) fn half_block_pixels(alloc: Global, text: &[u8]) -> Result<Pixels, Unscanned>
    ensures value { IfOk result (IsHalfBlocks text.now) }
    ensures causes { IfErr result (IsHalvesRefusal text.now) }
{
    let halves = halves_of(alloc, text)?;
    let across = width(&halves);
    if across == 0 || across > GREATEST_HALVES {
        return Err(Unscanned::NoSide);
    }
    let marks = square_rows(rows(alloc, &halves, across)?, across);
    let down = marks.len() / across;
    if down > GREATEST_HALVES {
        return Err(Unscanned::NoSide);
    }
    Ok(Pixels::new(across, down, marks))
}

// Splits a text into what it consists of.
fn halves_of(alloc: Global, text: &[u8]) -> Result<Vec<Half>, Unscanned>
    ensures value { IfOk result (λ halves. AreHalves halves.items text.now) }
    ensures causes { IfErr result (λ e. (e ≡ OutOfMemory) ⊎ ((e ≡ NotPicture)
        × ((halves : List Half) → ¬ AreHalves halves text.now))) }
{
    let mut halves = Vec::new(alloc);
    let mut rest = text;
    while !rest.is_empty() {
        let (half, more) = next_half(rest)?;
        halves.push(half)?;
        rest = more;
    }
    Ok(halves)
}

// Splits off the first item of a text.
#[tactic(auto, using(crate::proofs::HalfBlocks::no_half))]
fn next_half(text: &[u8]) -> Result<(Half, &[u8]), Unscanned>
    requires { 1 ≤ length text.now }
    ensures value { IfOk result (λ found. IsHalf found.0 text.now found.1.now) }
    ensures at_most { IfOk result (λ found. length found.1.now < length text.now) }
    ensures none { IfErr result (λ e. (e ≡ NotPicture)
        × ((half : Half) (rest : List ℕ) → ¬ IsHalf half text.now rest)) }
{
    match text {
        [b' ', more @ ..] => Ok((Half::Pair(false, false), more)),
        [0xc2, 0xa0, more @ ..] => Ok((Half::Pair(false, false), more)),
        [0xe2, 0x96, 0x80, more @ ..] => Ok((Half::Pair(true, false), more)),
        [0xe2, 0x96, 0x84, more @ ..] => Ok((Half::Pair(false, true), more)),
        [0xe2, 0x96, 0x88, more @ ..] => Ok((Half::Pair(true, true), more)),
        [b'\n', more @ ..] => Ok((Half::End, more)),
        [b'\r', more @ ..] => Ok((Half::Return, more)),
        [0x1b, b'[', more @ ..] => Ok((Half::Colours, behind_colour(more)?)),
        _ => Err(Unscanned::NotPicture),
    }
}

// Returns what follows the `m` that ends a control sequence of digits and semicolons.
#[tactic(auto, unfolding(crate::specs::Halves::behind_colour))]
fn behind_colour(text: &[u8]) -> Result<&[u8], Unscanned>
    ensures value { IfOk result (λ rest. behind_colour text.now ≡ Some rest.now) }
    ensures at_most { IfOk result (λ rest. length rest.now ≤ length text.now) }
    ensures none { IfErr result (λ e. (e ≡ NotPicture) × (behind_colour text.now ≡ None)) }
{
    let mut rest = text;
    while let [first, more @ ..] = rest {
        match *first {
            b'm' => return Ok(more),
            b'0'..=b'9' | b';' => rest = more,
            _ => return Err(Unscanned::NotPicture),
        }
    }
    Err(Unscanned::NotPicture)
}

// Returns the number of columns of the longest line.
#[tactic(auto, unfolding(crate::specs::Halves::longest))]
fn width(halves: &[Half]) -> usize
    ensures { result ≡ longest 0 0 halves.now }
{
    let mut most = 0;
    let mut columns = 0;
    for half in halves {
        match half {
            Half::Pair(_, _) => columns += 1,
            Half::End => {
                most = most.max(columns);
                columns = 0;
            }
            Half::Return | Half::Colours => {}
        }
    }
    most.max(columns)
}

// Returns the pixels of the lines, each `across` columns wide.
#[tactic(auto, unfolding(crate::specs::Halves::rows_from))]
fn rows(alloc: Global, halves: &[Half], across: usize) -> Result<Vec<bool>, Unscanned>
    requires { across ≤ 4096 }
    ensures value { IfOk result (λ marks. marks.items ≡ rows_from across [] [] halves.now) }
    ensures causes { IfErr result (λ e. (e ≡ OutOfMemory) ⊎ ((e ≡ NoSide) × (4096 * across
        < length (without_last across (rows_from across [] [] halves.now))))) }
{
    let mut marks = Vec::new(alloc);
    let (mut upper, mut lower) = (Vec::new(alloc), Vec::new(alloc));
    for half in halves {
        match *half {
            Half::Pair(above, below) => {
                upper.push(above)?;
                lower.push(below)?;
            }
            Half::End => {
                if marks.len() > GREATEST_HALVES * across {
                    return Err(Unscanned::NoSide);
                }
                push_row(&mut marks, &upper, across)?;
                push_row(&mut marks, &lower, across)?;
                upper.clear();
                lower.clear();
            }
            Half::Return | Half::Colours => {}
        }
    }
    if !upper.is_empty() {
        push_row(&mut marks, &upper, across)?;
        push_row(&mut marks, &lower, across)?;
    }
    Ok(marks)
}

// Appends a row, filled up with light pixels.
fn push_row(marks: &mut Vec<bool>, row: &[bool], across: usize) -> Result<(), AllocError>
    ensures { OnOk result (marks.new.items ≡ marks.old.items ++ padded across row.now) }
{
    for x in 0..across {
        marks.push(mark_of(row, x))?;
    }
    Ok(())
}

// Whether pixel `x` of a row is dark; there is none after its end.
fn mark_of(row: &[bool], x: usize) -> bool
    ensures { result ≡ slice_index_or row.now x false }
{
    matches!(row.get(x), Some(true))
}

// Leaves out the last row if there is one row more than columns and the pixels of the last one are
// all light or all dark.
fn square_rows(marks: Vec<bool>, across: usize) -> Vec<bool>
    requires { across ≤ 4096 }
    ensures { result.items ≡ without_last across marks.items }
{
    let mut marks = marks;
    if marks.len() == across * (across + 1) && are_same(&marks[across * across..]) {
        marks.truncate(across * across);
    }
    marks
}

// Whether all pixels are light, or all are dark.
fn are_same(marks: &[bool]) -> bool
    ensures { result ≡ are_same marks.now }
{
    are_light(marks) || are_dark(marks)
}

fn are_light(marks: &[bool]) -> bool
    ensures { result ≡ list_all not marks.now }
{
    marks.iter().all(|mark| !*mark)
}

fn are_dark(marks: &[bool]) -> bool
    ensures { result ≡ list_all (λ mark. mark) marks.now }
{
    marks.iter().all(|mark| *mark)
}
