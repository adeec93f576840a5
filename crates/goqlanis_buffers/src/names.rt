//! The numbers of levels and versions in C.

ghost use Rattle.std.specs.Prelude.{◌≡◌, Some, IfErr, IfOk, IfSome, IsTrue};
ghost use Rattle.qrcode_types.specs.Versions.{is_valid};
ghost use Rattle.goqlanis_buffers.specs.Names.{level_named, version_named, IsLevelNamed, IsPairCause};

use crate::answers::Refusal;
use qrcode::types::{EcLevel, Version};
use qrcode_types::tables::Blocks;

/// Returns the level of a number: 0 for `L`, 1 for `M`, 2 for `Q`, 3 for `H`.
pub fn level_named(number: u32) -> Option<EcLevel>
    ensures value { result ≡ level_named number }
{
    match number {
        0 => Some(EcLevel::L),
        1 => Some(EcLevel::M),
        2 => Some(EcLevel::Q),
        3 => Some(EcLevel::H),
        _ => None,
    }
}

/// Returns the number of a level.
pub(crate) fn level_number(level: EcLevel) -> u32
    ensures value { level_named result ≡ Some level }
{
    level as u32
}

/// Returns the version of a number: 1 to 40 for Normal, 41 to 44 for Micro.
pub fn version_named(number: u32) -> Option<Version>
    ensures value { result ≡ version_named number }
    ensures valid { IfSome result (λ version. IsTrue (is_valid version)) }
{
    match number {
        1..=40 => Some(Version::Normal(number as i16)),
        41..=44 => Some(Version::Micro((number - 40) as i16)),
        _ => None,
    }
}

/// Returns the number of a valid version.
pub fn version_number(version: Version) -> u32
    requires { IsTrue (is_valid version) }
    ensures value { version_named result ≡ Some version }
{
    match version {
        Version::Normal(number) => number as u32,
        Version::Micro(number) => 40 + number as u32,
    }
}

/// Returns the version and the level of these numbers, if the version has the level.
///
/// Errors, the first that applies: `NoSuchLevel`, `NoSuchVersion`, `LevelNotInVersion`.
pub(crate) fn pair_named(version: u32, level: u32) -> Result<(Version, EcLevel), Refusal>
    ensures named { IfOk result (λ pair. IsLevelNamed version level pair.0 pair.1) }
    ensures causes { IfErr result (IsPairCause version level) }
{
    let Some(level) = level_named(level) else {
        return Err(Refusal::NoSuchLevel);
    };
    let Some(version) = version_named(version) else {
        return Err(Refusal::NoSuchVersion);
    };
    match Blocks::of(version, level) {
        Some(_) => Ok((version, level)),
        None => Err(Refusal::LevelNotInVersion),
    }
}
