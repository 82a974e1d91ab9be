//! The version of the archive.

ghost use Rattle.std.specs.Prelude.{◌≡◌, pos};

/// The version, as `DAA_VERSION` of the header has it: major * 10000 + minor * 100 + patch.
#[unsafe(no_mangle)]
pub extern "C" fn daa_version() -> i32
    ensures { result ≡ pos 30300 }
{
    30300
}
