ghost use Rattle.std.specs.Prelude.{◌≡◌};

/// The version of this library as a number: 204 for 0.2.4, 10203 for 1.2.3.
#[unsafe(no_mangle)]
pub extern "C" fn slotroute_version() -> u32
    ensures { result ≡ 204 }
{
    204
}
