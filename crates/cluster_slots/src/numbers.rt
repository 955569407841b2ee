ghost use Rattle.std.specs.Prelude.{◌≡◌};
ghost use Rattle.cluster_slots.specs.Number.{number_in};

/// The number that an argument writes, as `u64::from_str` reads it.
pub fn parse_u64(arg: &[u8]) -> Option<u64>
    ensures { result ≡ number_in 64 arg.now }
{
    let Ok(text) = str::from_utf8(arg) else {
        return None;
    };
    match text.parse::<u64>() {
        Ok(number) => Some(number),
        Err(_) => None,
    }
}

/// The number that an argument writes, as `u16::from_str` reads it.
pub fn parse_u16(arg: &[u8]) -> Option<u16>
    ensures { result ≡ number_in 16 arg.now }
{
    let Ok(text) = str::from_utf8(arg) else {
        return None;
    };
    match text.parse::<u16>() {
        Ok(number) => Some(number),
        Err(_) => None,
    }
}
