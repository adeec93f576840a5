//! The version of the library.

ghost use Rattle.std.specs.Prelude.{◌≡◌};

/// Returns the version of the library: `GOQ_VERSION` of the header that goes with it.
#[unsafe(no_mangle)]
pub extern "C" fn goq_version() -> u32
    ensures { result ≡ 10000 }
{
    10000
}
