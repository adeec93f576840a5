//! Names of modes, in `--segment` and in reports.

use qrcode::types::Mode;

/// Returns the name of a mode.
pub fn mode_name(mode: Mode) -> &'static str {
    match mode {
        Mode::Numeric => "numeric",
        Mode::Alphanumeric => "alphanumeric",
        Mode::Byte => "byte",
        Mode::Kanji => "kanji",
    }
}

/// Returns the mode called `name`, ignoring case.
pub fn mode_named(name: &str) -> Option<Mode> {
    let modes = [Mode::Numeric, Mode::Alphanumeric, Mode::Byte, Mode::Kanji];
    let mut modes = modes.into_iter();
    modes.find(|mode| mode_name(*mode).eq_ignore_ascii_case(name))
}
