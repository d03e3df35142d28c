// The version of the library.
ghost use Rattle.std.specs.Prelude.{◌≡◌};
ghost use Rattle.neon_terms.specs.Version.{version};

// major × 1,000,000 + minor × 1,000 + patch.
#[unsafe(no_mangle)]
pub extern "C" fn neon_version() -> u64
    ensures { result ≡ version }
{
    1000000
}
