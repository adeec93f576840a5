//! Reports where codes of pictures, and squares of modules, depart from the standard.

ghost use Rattle.std.specs.Prelude.{◌≡◌, All, flat_map, IfErr, IfOk};
ghost use Rattle.goqlanis_buffers.specs.Shades.{colors_of};
ghost use Rattle.goqlanis_buffers.specs.Checking.{letter_of, told_content, wrong_counts, AreToldChecks, ChecksPicture, ChecksSquare, HasCheckLevel, IsChecked, IsToldCheck, IsUncheckedFor};

use crate::answers::Refusal;
use crate::names::{level_number, version_number};
use crate::reading::mask_number;
use crate::scanning::MOST;
use crate::symbols::{colors_of, fill, put};
use qrcode_check::correction::{Grade, grade_of};
use qrcode_check::masks::Rank;
use qrcode_check::modules::WrongModules;
use qrcode_check::segments::BitUse;
use qrcode_check::{Check, Content, check_square};
use qrcode_reader::version_of;
use qrcode_scan::check_codes;
use std::alloc::{AllocError, Global};

/// The findings on a code, besides the wrong codewords of its blocks.
#[repr(C)]
#[derive(Clone, Copy)]
pub struct Checked {
    /// 1 to 40 for Normal, 41 to 44 for Micro.
    pub version: u32,
    /// 0 for `L`, 1 for `M`, 2 for `Q`, 3 for `H`.
    pub level: u32,
    /// The number of the mask: 0 to 7, in Micro 0 to 3.
    pub mask: u32,
    /// 1 if nothing departs from the standard, else 0.
    pub standard: u32,
    /// The letter (ASCII) of the grade of the unused error correction.
    pub grade: u32,
    /// How many blocks there are.
    pub blocks: usize,
    /// How many wrong codewords of each block the standard lets readers correct.
    pub allowed: usize,
    /// The unused error correction of the worst block, in hundredths.
    pub unused: usize,
    /// How many modules of patterns are wrong.
    pub wrong: WrongModules,
    /// The findings on the data bits.
    pub content: DataBits,
    /// The rank of the mask, by the balance of the standard.
    pub masks: Rank,
    /// The rank of the mask, by the balance of this project.
    pub masks_here: Rank,
}

/// The findings on data bits. All are 0 if the bits are not segments and a terminator.
#[repr(C)]
#[derive(Clone, Copy, Default)]
pub struct DataBits {
    /// 1 if the bits are segments and a terminator.
    pub segments: u32,
    /// 1 if `bits` and `fewest` are known.
    pub compared: u32,
    /// How many bits the segments take.
    pub bits: usize,
    /// The fewest bits that their bytes need.
    pub fewest: usize,
    /// How many bits of the terminator, and of the zeros after it, are wrong.
    pub terminator: usize,
    /// How many bits of the padding are wrong.
    pub padding: usize,
    /// How many segments have a character set that readers must guess.
    pub guessed: usize,
    /// 1 if each of these is UTF-8.
    pub are_utf8: u32,
}

/// How many items have been written to the start of each buffer.
#[repr(C)]
#[derive(Clone, Copy)]
pub struct Checks {
    /// The size of this struct in bytes.
    pub size: u32,
    /// The codes.
    pub codes: usize,
    /// The blocks of all codes.
    pub blocks: usize,
}

// The findings on each code, and the wrong codewords of all blocks, code after code.
#[derive(Drop)]
struct CheckReport {
    checks: Vec<Checked>,
    wrong: Vec<usize>,
}

// The size of `Checks` in bytes.
const SIZE: u32 = 24;

/// Checks the codes in a picture, for a `Checks` of this size. Writes the findings on each to the
/// start of `checks`, and how many codewords of each block are wrong to the start of `wrong`;
/// returns how many of both there are.
///
/// Errors, the first that applies: `NoSuchStruct`, `LargePicture`, `NotPicture` or `BrokenPicture`,
/// `NoSquare`, `NoSuchSide`, `NoFormat` or `Damaged`, `SmallBuffer`; or `OutOfMemory`. After an
/// error the buffers are unchanged.
pub fn check_into(
    alloc: Global,
    picture: &[u8],
    size: u32,
    checks: &mut [Checked],
    wrong: &mut [usize],
) -> Result<Checks, Refusal>
    ensures { ChecksPicture picture.now size checks.old checks.new wrong.old wrong.new result }
{
    let told = told_in(alloc, picture, size)?;
    if checks.len() < told.checks.len() || wrong.len() < told.wrong.len() {
        return Err(Refusal::SmallBuffer);
    }
    fill(checks, &told.checks);
    fill(wrong, &told.wrong);
    Ok(Checks {
        size: SIZE,
        codes: told.checks.len(),
        blocks: told.wrong.len(),
    })
}

// Checks the codes in a picture.
fn told_in(alloc: Global, picture: &[u8], size: u32) -> Result<CheckReport, Refusal>
    ensures told { IfOk result (λ told.
        IsChecked picture.now size told.checks.items told.wrong.items) }
    ensures causes { IfErr result (IsUncheckedFor picture.now size) }
{
    if size != SIZE {
        return Err(Refusal::NoSuchStruct);
    }
    if picture.len() > MOST {
        return Err(Refusal::LargePicture);
    }
    let found = check_codes(alloc, picture)?;
    Ok(CheckReport {
        checks: checks_in(alloc, &found.checks)?,
        wrong: wrong_counts(alloc, &found.checks)?,
    })
}

// Converts each check.
fn checks_in(alloc: Global, checks: &[Check]) -> Result<Vec<Checked>, AllocError>
    requires { All HasCheckLevel checks.now }
    ensures { IfOk result (λ all. AreToldChecks checks.now all.items) }
{
    let mut all = Vec::new(alloc);
    for i in 0..checks.len() {
        all.push(told_check(&checks[i]))?;
    }
    Ok(all)
}

// The wrong codewords of the blocks, code after code.
#[tactic(auto, using(qrcode_scan::proofs::Pieces::flat_map_more))]
fn wrong_counts(alloc: Global, checks: &[Check]) -> Result<Vec<usize>, AllocError>
    ensures { IfOk result (λ wrong. wrong.items ≡ flat_map wrong_counts checks.now) }
{
    let mut all = Vec::new(alloc);
    for check in checks {
        all.extend_from_slice(&check.wrong)?;
    }
    Ok(all)
}

// Converts a check, except the wrong codewords of its blocks.
fn told_check(check: &Check) -> Checked
    requires { HasCheckLevel check.now }
    ensures { IsToldCheck check.now result }
{
    Checked {
        version: version_number(check.version),
        level: level_number(check.ec_level),
        mask: mask_number(check.version, check.mask),
        standard: check.is_standard() as u32,
        grade: letter_of(grade_of(check.unused)),
        blocks: check.wrong.len(),
        allowed: check.allowed,
        unused: check.unused,
        wrong: check.modules,
        content: told_content(check.content),
        masks: check.stepped,
        masks_here: check.own,
    }
}

// The letter of a grade in ASCII.
fn letter_of(grade: Grade) -> u32
    ensures { result ≡ letter_of grade }
{
    match grade {
        Grade::A => 65,
        Grade::B => 66,
        Grade::C => 67,
        Grade::D => 68,
        Grade::F => 70,
    }
}

// Converts the findings on data bits.
fn told_content(content: Option<Content>) -> DataBits
    ensures { result ≡ told_content content }
{
    let none = DataBits::default();
    let Some(content) = content else {
        return none;
    };
    let said = DataBits {
        segments: 1,
        terminator: content.ending.terminator,
        padding: content.ending.padding,
        guessed: content.guesses.segments,
        are_utf8: content.guesses.are_utf8 as u32,
        ..none
    };
    match content.taken {
        Some(BitUse { bits, least }) => DataBits {
            compared: 1,
            bits,
            fewest: least,
            ..said
        },
        None => said,
    }
}

/// Checks a square of modules: bytes, row by row, dark if not zero. Writes how many codewords of
/// each block are wrong to the start of `wrong`, and returns the other findings.
///
/// Errors: `NoSuchSide`, `NoFormat`, `Damaged`, `SmallBuffer` or `OutOfMemory`. After an error
/// `wrong` is unchanged.
#[tactic(auto, using(crate::proofs::Checked::level_exists, crate::proofs::Known::no_side))]
pub fn check_square_into(
    alloc: Global,
    modules: &[u8],
    wrong: &mut [usize],
) -> Result<Checked, Refusal>
    ensures { ChecksSquare modules.now wrong.old wrong.new result }
{
    if version_of(modules.len()).is_none() {
        return Err(Refusal::NoSuchSide);
    }
    let colors = colors_of(alloc, modules)?;
    let check = check_square(alloc, &colors)?;
    put(wrong, &check.wrong)?;
    Ok(told_check(&check))
}
