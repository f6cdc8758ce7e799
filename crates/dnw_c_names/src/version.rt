//! The version of the library.
ghost use Rattle.std.specs.Prelude.{◌≡◌};
ghost use Rattle.dnw_c_names.specs.Version.{library_version};

/// The version of the library: its major, minor and patch number, an octet each. `rust/Cargo.toml` has it too.
const VERSION: u32 = 0x00_01_00;

/// Returns the version of the library.
#[unsafe(no_mangle)]
pub extern "C" fn dnw_version() -> u32
    ensures { result ≡ library_version }
{
    VERSION
}
