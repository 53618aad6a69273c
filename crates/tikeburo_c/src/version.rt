//! The library's version.
ghost use Rattle.std.specs.Prelude.{◌≡◌};

/// The library's version, 1000000 times its first number, 1000 times its second, and its third.
#[unsafe(no_mangle)]
pub extern "C" fn tk_version_number() -> usize
    ensures { result ≡ 9000 }
{
    9000
}
