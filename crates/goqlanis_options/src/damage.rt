//! The options of damaged codes.

use crate::colours::part_colour;
use clap::ArgMatches;
use goqlanis_files::failure::Failure;
use goqlanis_files::usage;
use qrcode_reader::Position;
use std::alloc::Global;

/// How many codewords of each block are wrong.
#[derive(Clone, Copy)]
pub enum WrongCount {
    Count(usize),
    /// The most that goqlanis corrects.
    Most,
    /// One more.
    Beyond,
}

/// The damage that the command line asks for.
#[derive(Clone, Copy)]
pub struct AskedDamage {
    pub codewords: WrongCount,
    /// Wrong bits in each copy of the format information.
    pub format_bits: usize,
    /// Wrong bits in each copy of the version information.
    pub version_bits: usize,
    /// Wrong modules of patterns.
    pub pattern_modules: usize,
    pub seed: u64,
    /// How the code lies in its picture.
    pub position: Position,
}

/// Returns the damage that the command line asks for.
///
/// Errors: `Usage` for a number of codewords that is not one, and with a colour of a part unless
/// the code lies upright; `OutOfMemory`.
pub(crate) fn damage_of(alloc: Global, given: &ArgMatches<'_>) -> Result<AskedDamage, Failure> {
    let codewords = wrong_of(alloc, given.get_str("wrong-codewords").unwrap_or("most"))?;
    let position = position_of(alloc, given)?;
    Ok(AskedDamage {
        codewords,
        format_bits: given.get_one::<u8>("wrong-format").unwrap_or(0) as usize,
        version_bits: given.get_one::<u8>("wrong-version").unwrap_or(0) as usize,
        pattern_modules: given.get_one::<u16>("wrong-patterns").unwrap_or(0) as usize,
        seed: given.get_one::<u64>("seed").unwrap_or(0),
        position,
    })
}

fn wrong_of(alloc: Global, word: &str) -> Result<WrongCount, Failure> {
    match (word, word.parse::<u8>()) {
        ("most", _) => Ok(WrongCount::Most),
        ("beyond", _) => Ok(WrongCount::Beyond),
        (_, Ok(count)) => Ok(WrongCount::Count(count as usize)),
        _ => usage!(alloc;
            "--wrong-codewords {word}: use a number, most (as many as are corrected) or beyond \
            (one more)"
        ),
    }
}

// Returns how the code lies in its picture: mirrored if asked for, and then turned.
fn position_of(alloc: Global, given: &ArgMatches<'_>) -> Result<Position, Failure> {
    let position = match (given.get_str("turn"), given.get_flag("mirror")) {
        (Some("90"), false) => Position::TurnedRight,
        (Some("180"), false) => Position::UpsideDown,
        (Some("270"), false) => Position::TurnedLeft,
        (Some("90"), true) => Position::Antitransposed,
        (Some("180"), true) => Position::Flipped,
        (Some("270"), true) => Position::Transposed,
        (_, true) => Position::Mirrored,
        (_, false) => Position::Upright,
    };
    match part_colour(given) {
        Some(part) if position != Position::Upright => {
            usage!(alloc; "--{part}: only upright codes have colours of parts")
        }
        _ => Ok(position),
    }
}
