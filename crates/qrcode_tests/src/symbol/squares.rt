//! Tests of the penalties of squares that the library does not draw, with rows of each packed type.

ghost use Rattle.std.specs.Prelude.{◌≡◌, ◌+◌, ◌<◌, ◌≤◌, length, map, IfOk};
ghost use Rattle.qrcode_penalty.specs.Rows.{FitsWidth, IsSquare};

use crate::common::check_row;
use qrcode_penalty::penalty::{micro_penalty, normal_penalty};
use qrcode_penalty::row::{PackedRow, Row128, Row192};
use qrcode_penalty::square::PackedSquare;
use qrcode_types::types::QrResult;
use std::alloc::Global;

// Kinds of squares.
#[derive(Copy, Clone)]
enum Kind {
    Light,
    Dark,
    // Each module by a hash of its place.
    Mixed,
    // A finder-like pattern in each row, one column further right than in the row above.
    Finders,
    // A run in each row, one column further right than in the row above, among alternating modules.
    Runs,
    // The bits of each row.
    Rows(&'static [u32]),
    // A chessboard whose row 88 has a run from the first column to before the second.
    RunInRow(usize, usize),
    // A single finder-like pattern, in row 88 from this column on.
    FinderInRow(usize),
}

impl Kind {
    fn is_dark(self, x: usize, y: usize) -> bool {
        match self {
            Kind::Light => false,
            Kind::Dark => true,
            Kind::Mixed => is_dark_by_hash(x, y),
            Kind::Finders => matches!(x.wrapping_sub(y), 0 | 2..=4 | 6),
            Kind::Runs => x.wrapping_sub(y) < 5 + y % 4 || x % 2 == 0,
            Kind::Rows(rows) => x < 32 && rows.get(y).copied().unwrap_or(0) >> x as u32 & 1 == 1,
            Kind::RunInRow(first, past) => is_dark_by_run(first, past, x, y),
            Kind::FinderInRow(first) => y == 88 && matches!(x.wrapping_sub(first), 0 | 2..=4 | 6),
        }
    }
}

// Whether a hash of the place is odd.
fn is_dark_by_hash(x: usize, y: usize) -> bool {
    let x = (x % 256) as u32;
    let y = (y % 256) as u32;
    let mixed = x.wrapping_mul(0x9e37_79b1) ^ y.wrapping_mul(0x85eb_ca6b);
    (mixed.wrapping_mul(0xc2b2_ae35) >> 17) % 2 == 1
}

// Whether a module of the chessboard with a run is dark.
fn is_dark_by_run(first: usize, past: usize, x: usize, y: usize) -> bool {
    let column = match x {
        _ if y != 88 || x <= first => x,
        _ if x < past => first,
        _ => first.wrapping_add(1).wrapping_add(x.wrapping_sub(past)),
    };
    column.wrapping_add(y) % 2 == 0
}

// Returns the modules of row `y`.
#[tactic(auto, using(qrcode_penalty::proofs::RowLists::cut_fits))]
fn row_of<R: PackedRow>(kind: Kind, y: usize, width: u32) -> R
    requires { width < R.room }
    ensures { FitsWidth width (R.bits result) }
{
    let mut row = R::first(0);
    for x in 0..width {
        if kind.is_dark(x as usize, y) {
            row = row.xor(R::first(x + 1)).xor(R::first(x));
        }
    }
    row.and(R::first(width))
}

fn fill<R: PackedRow>(kind: Kind, width: u32, rows: &mut [R])
    requires at_least { 7 ≤ width }
    requires room { width + 3 ≤ R.room }
    requires length { length rows.old ≡ width }
    ensures { IsSquare R.room (record { width = width; rows = map R.bits rows.new }) }
{
    for y in 0..rows.len() {
        rows[y] = row_of(kind, y, width);
    }
}

// Returns the rows of a square.
fn rows_of<R: PackedRow>(alloc: Global, kind: Kind, width: u32) -> QrResult<Vec<R>>
    requires at_least { 7 ≤ width }
    requires room { width + 3 ≤ R.room }
    ensures { IfOk result (λ rows.
        IsSquare R.room (record { width = width; rows = map R.bits rows.items })) }
{
    let mut rows = vec![in alloc; R::first(0); width as usize]?;
    fill(kind, width, &mut rows);
    Ok(rows)
}

// Whether a square in packed rows of type `R` has these penalties of Normal and Micro; true as well
// if the type has no room for it.
fn costs_in<R: PackedRow>(
    alloc: Global,
    kind: Kind,
    width: u32,
    room: u32,
    expected: (u32, u32),
) -> bool
    requires { room ≤ R.room }
{
    let (normal, micro) = expected;
    if width < 7 || width > room.saturating_sub(3) {
        return true;
    }
    match rows_of::<R>(alloc, kind, width) {
        Ok(rows) => {
            let square = PackedSquare::new(&rows, width);
            normal_penalty(&square) == normal && micro_penalty(&square) == micro
        }
        Err(_) => false,
    }
}

// Whether a square has these penalties in packed rows of each type that has room for it.
fn costs(alloc: Global, kind: Kind, width: u32, expected: (u32, u32)) -> bool {
    costs_in::<u64>(alloc, kind, width, 64, expected)
        && costs_in::<Row128>(alloc, kind, width, 128, expected)
        && costs_in::<Row192>(alloc, kind, width, 192, expected)
}

// A symbol whose penalty is published term by term: runs 88 and 92, blocks 90, finder-like patterns
// 360 and 400, balance 2.
#[rattlefmt::skip]
const PUBLISHED: [u32; 21] = [
    0x1fc37f, 0x104941, 0x17595d, 0x17415d, 0x17455d, 0x104441, 0x1fd57f, 0x000100, 0x1f50d6,
    0x110f02, 0x0346ec, 0x0eacb6, 0x15dd51, 0x144b00, 0x06857f, 0x02da41, 0x1fc55d, 0x08aa5d,
    0x12f15d, 0x1a2d41, 0x10f07f,
];

// A square that is light except in its last row and column. After their first modules these have 10
// and 8 light ones, which cost 18 and 150 in Micro.
#[rattlefmt::skip]
const SIDES: [u32; 17] = [
    0x10000, 0x10000, 0x10000, 0, 0, 0x10000, 0x10000, 0, 0x10000, 0, 0x10000, 0, 0x10000, 0, 0,
    0x10000, 0x02539,
];

// A kind of square, its side, and its penalties in Normal and in Micro. evidence/judge/penalty.py
// counted them; those of one colour were also counted by hand, and one is published.
type Counted = (Kind, u32, (u32, u32));

#[rattlefmt::skip]
static COUNTED: [Counted; 25] = [
    (Kind::Rows(&PUBLISHED), 21, (1032, 150)),
    // An empty canvas of Micro 1 at L under each of its masks.
    (Kind::Rows(&[
        0x7ff, 0x100, 0x6ff, 0x100, 0x6ff, 0x000, 0x6ff, 0x100, 0x623, 0x000, 0x7ff,
    ]), 11, (94, 80)),
    (Kind::Rows(&[
        0x1c7, 0x0c7, 0x738, 0x638, 0x0c7, 0x1c7, 0x738, 0x738, 0x083, 0x1c7, 0x638,
    ]), 11, (93, 85)),
    (Kind::Rows(&[
        0x7ff, 0x1c7, 0x7db, 0x455, 0x36d, 0x471, 0x7ff, 0x0c7, 0x673, 0x555, 0x36d,
    ]), 11, (111, 68)),
    (Kind::Rows(&[
        0x555, 0x638, 0x471, 0x3aa, 0x1c7, 0x38e, 0x455, 0x638, 0x4d3, 0x2aa, 0x1c7,
    ]), 11, (24, 85)),
    (Kind::Rows(&SIDES), 17, (1246, 168)),
    (Kind::Light, 21, (2098, 340)),
    (Kind::Dark, 21, (2098, 0)),
    (Kind::Light, 177, (154978, 2992)),
    (Kind::Dark, 177, (154978, 0)),
    (Kind::Mixed, 61, (2872, 558)),
    (Kind::Mixed, 125, (11334, 1018)),
    (Kind::Mixed, 177, (22273, 1621)),
    (Kind::Finders, 61, (20089, 999)),
    (Kind::Finders, 177, (161387, 2971)),
    (Kind::Runs, 61, (4529, 480)),
    (Kind::Runs, 125, (17324, 992)),
    (Kind::Runs, 177, (33754, 1408)),
    // A single run or finder-like pattern in a row that is packed into three words.
    (Kind::RunInRow(126, 131), 177, (3, 1496)),
    (Kind::RunInRow(123, 129), 177, (5, 1512)),
    (Kind::RunInRow(62, 67), 177, (3, 1496)),
    (Kind::FinderInRow(0), 177, (154954, 2992)),
    (Kind::FinderInRow(61), 177, (154946, 2992)),
    (Kind::FinderInRow(124), 177, (154946, 2992)),
    (Kind::FinderInRow(170), 177, (154954, 2991)),
];

#[test]
fn squares_cost_what_was_counted(rt: HostRuntime) {
    for (i, (kind, width, expected)) in COUNTED.iter().enumerate() {
        check_row(&rt, i, costs(rt.alloc(), *kind, *width, *expected));
    }
}
