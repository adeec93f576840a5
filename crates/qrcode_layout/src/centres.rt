//! The centres of alignment patterns.

ghost use Rattle.std.specs.Prelude.{◌≡◌, ◌≤◌, pos, IsTrue};
ghost use Rattle.std.specs.List.{list_all};
ghost use Rattle.qrcode_types.specs.Versions.{is_valid, side};
ghost use Rattle.qrcode_types.specs.declared.types.Version.TheVariants.{Normal};
ghost use Rattle.qrcode_layout.specs.Figures.{centres, is_centre_inside};

use qrcode_types::types::Version;

// The coordinates of the alignment centres of Normal 1 to 40.
static CENTRES: [&[u8]; 40] = [
    &[],
    &[6, 18],
    &[6, 22],
    &[6, 26],
    &[6, 30],
    &[6, 34],
    &[6, 22, 38],
    &[6, 24, 42],
    &[6, 26, 46],
    &[6, 28, 50],
    &[6, 30, 54],
    &[6, 32, 58],
    &[6, 34, 62],
    &[6, 26, 46, 66],
    &[6, 26, 48, 70],
    &[6, 26, 50, 74],
    &[6, 30, 54, 78],
    &[6, 30, 56, 82],
    &[6, 30, 58, 86],
    &[6, 34, 62, 90],
    &[6, 28, 50, 72, 94],
    &[6, 26, 50, 74, 98],
    &[6, 30, 54, 78, 102],
    &[6, 28, 54, 80, 106],
    &[6, 32, 58, 84, 110],
    &[6, 30, 58, 86, 114],
    &[6, 34, 62, 90, 118],
    &[6, 26, 50, 74, 98, 122],
    &[6, 30, 54, 78, 102, 126],
    &[6, 26, 52, 78, 104, 130],
    &[6, 30, 56, 82, 108, 134],
    &[6, 34, 60, 86, 112, 138],
    &[6, 30, 58, 86, 114, 142],
    &[6, 34, 62, 90, 118, 146],
    &[6, 30, 54, 78, 102, 126, 150],
    &[6, 24, 50, 76, 102, 128, 154],
    &[6, 28, 54, 80, 106, 132, 158],
    &[6, 32, 58, 84, 110, 136, 162],
    &[6, 26, 54, 82, 110, 138, 166],
    &[6, 30, 58, 86, 114, 142, 170],
];

// Returns the coordinates for Normal version `number`.
fn normal_centres(number: usize) -> &'static [u8]
    requires at_least { 1 ≤ number }
    requires at_most { number ≤ 40 }
    ensures { result.now ≡ centres (Normal (pos number)) }
{
    CENTRES[number - 1]
}

/// Returns the coordinates of the alignment centres of `version`, in rising order (ISO/IEC
/// 18004:2006, annex E). They serve as columns and as rows; two that meet in the corner of a finder
/// pattern (`is_corner_centre`) are no centre. The list is empty for a version without alignment
/// patterns. The version must exist.
#[tactic(auto, using(crate::proofs::Agreements::centres_inside))]
pub fn centres(version: Version) -> &'static [u8]
    requires { IsTrue (is_valid version) }
    ensures value { result.now ≡ centres version }
    ensures inside { IsTrue (list_all (is_centre_inside (side version)) result.now) }
{
    match version {
        Version::Normal(v) => normal_centres(v as usize),
        Version::Micro(_) => &[],
    }
}
