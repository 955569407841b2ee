ghost use Rattle.std.specs.Prelude.{◌≡◌, ◌≤◌, ◌^◌, ◌+◌, ◌<◌, Some};
ghost use Rattle.resp.specs.Forms.{number_up_to, int_in, length_in, below_zero, not_below_zero};

/// The number that one or more digits write, if it is below a limit.
pub(super) fn number_of(text: &[u8], limit: u64) -> Option<u64>
    requires { (10 ≤ limit) × (limit ≤ 2 ^ 63 + 1) }
    ensures { result ≡ number_up_to limit text.now }
{
    let [_, ..] = text else {
        return None;
    };
    let mut number: u64 = 0;
    for digit in text {
        if !digit.is_ascii_digit() {
            return None;
        }
        let value = u64::from(*digit - b'0');
        if (limit - 1 - value) / 10 < number {
            return None;
        }
        number = 10 * number + value;
    }
    Some(number)
}

/// A length or a count.
pub(super) fn length_of(text: &[u8]) -> Option<u64>
    ensures { result ≡ length_in text.now }
{
    number_of(text, 1 << 63)
}

/// A number of 64 bits, with or without a sign. Inline in `int_at`, wherever that is called.
#[inline(always)]
#[tactic(auto, unfolding(crate::specs::Forms::int_in))]
pub(super) fn int_of(text: &[u8]) -> Option<i64>
    ensures { result ≡ int_in text.now }
{
    match text {
        [] => None,
        [b'-', digits @ ..] => Some(below_zero(number_of(digits, (1 << 63) + 1)?)),
        [b'+', digits @ ..] => Some(not_below_zero(length_of(digits)?)),
        [_, ..] => Some(not_below_zero(length_of(text)?)),
    }
}

/// The number `-n`.
fn below_zero(n: u64) -> i64
    requires { n ≤ 2 ^ 63 }
    ensures { Some result ≡ below_zero (Some n) }
{
    if n == 0 { 0 } else { -1 - (n - 1) as i64 }
}

/// The number `n`, which has 63 bits.
fn not_below_zero(n: u64) -> i64
    requires { n < 2 ^ 63 }
    ensures { Some result ≡ not_below_zero (Some n) }
{
    n as i64
}
