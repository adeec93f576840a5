//! Writes runs of dark cells as the subpaths of an SVG path.

ghost use Rattle.std.specs.Prelude.{◌≡◌, ◌+◌, ◌≤◌, ◌++◌, length, string_bytes, OnOk, IsOkUnless};
ghost use Rattle.qrcode_types.specs.declared.types.QrError.TheVariants.{OutOfMemory};
ghost use Rattle.qrcode_sheets.specs.Paths.{path_text, run_text, step_text};

use crate::runs::Run;
use qrcode_render::backwards::Backwards;
use qrcode_types::types::QrResult;

/// The pen's position: the upper left corner of the cell in this column and row.
#[derive(Copy, Clone)]
pub struct Pen {
    pub column: u64,
    pub row: u64,
}

// Writes the distance from `from` to `to` before `text`, after `forward` or, if `to` is smaller,
// after `back`. They have one or two bytes.
fn step(text: &mut Backwards, forward: &str, back: &str, from: u64, to: u64)
    requires forward { length forward.now ≤ 2 }
    requires back { length back.now ≤ 2 }
    requires room { length text.old + 22 ≤ 128 }
    ensures value { text.new ≡ step_text forward.now back.now from to ++ text.old }
    ensures length { length text.new ≤ length text.old + 22 }
{
    if from <= to {
        text.number(to - from);
        text.word(forward);
    } else {
        text.number(from - to);
        text.word(back);
    }
}

// Appends the subpath of a run.
fn push_run(text: &mut String, pen: Pen, run: Run) -> QrResult<()>
    ensures appends { OnOk result
        (string_bytes text.new ≡ string_bytes text.old ++ run_text pen run) }
    ensures memory { IsOkUnless result OutOfMemory }
{
    let mut subpath = Backwards::new();
    subpath.number(run.width as u64);
    subpath.word("v1h-");
    subpath.number(run.width as u64);
    subpath.word("h");
    step(&mut subpath, " ", "-", pen.row, run.top as u64);
    step(&mut subpath, "m", "m-", pen.column, run.left as u64);
    subpath.append_to(text)
}

/// Appends the subpaths of `runs`.
///
/// Errors: only `OutOfMemory`.
pub fn push_runs(text: &mut String, runs: &[Run]) -> QrResult<()>
    ensures appends { OnOk result
        (string_bytes text.new ≡ string_bytes text.old ++ path_text runs.now) }
    ensures memory { IsOkUnless result OutOfMemory }
{
    let mut pen = Pen { column: 0, row: 0 };
    for run in runs {
        push_run(text, pen, *run)?;
        pen = Pen {
            column: run.left as u64,
            row: run.top as u64 + 1,
        };
    }
    Ok(())
}
