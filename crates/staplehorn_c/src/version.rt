// The version of the library.
ghost use Rattle.std.specs.Prelude.{◌≡◌};

// major * 10,000 + minor * 100 + patch, as STAPLEHORN_VERSION of include/staplehorn.h says it in digits.
#[unsafe(no_mangle)]
pub extern "C" fn staplehorn_version() -> u32
    ensures { result ≡ 700 }
{
    staplehorn::version::staplehorn_version()
}
