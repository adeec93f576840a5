//! Prints a text as a QR code in the terminal, drawn in inverse video.
#![tactic(auto)]

mod program;

ghost use Rattle.std.specs.Prelude.{◌≡◌, is_ok, if◌then◌else◌};
ghost use Rattle.std.specs.Process.{exit_status};

use program::Fault;
use qrcode::types::QrError;
use std::env;
use std::process::ExitCode;

fn main(rt: HostRuntime) -> ExitCode {
    status(&rt, draw_argument(&rt))
}

// Draws the first argument on standard output. Arguments that cannot be obtained count as out of
// memory.
fn draw_argument(rt: &HostRuntime) -> Result<(), Fault> {
    let mut words = env::args(rt).map_err(|_| Fault::Qr(QrError::OutOfMemory))?;
    let text = words.nth(1);
    program::run(rt.alloc(), text.as_deref(), &mut rt.stdout())
}

// Turns the outcome of a run into an exit status, and prints a fault on standard error.
fn status<R: Eprint>(rt: &R, run: Result<(), Fault>) -> ExitCode
    ensures { exit_status result ≡ (if is_ok run then 0 else 1) }
{
    match run {
        Ok(()) => ExitCode::SUCCESS,
        Err(fault) => {
            let _ = eprintln!(rt; "{fault}");
            ExitCode::FAILURE
        }
    }
}
