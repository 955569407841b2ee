ghost use Rattle.std.specs.Prelude.{◌≡◌, length, map, MatchResult, Some, None};
ghost use Rattle.resp_core.specs.View.{view};
ghost use Rattle.redis_combiners.specs.Misfits.{first_misfit};

use resp_core::{ErrorKind, RedisError, RedisResult, Value};

/// Checks that each reply is an array with as many items as its count.
pub(super) fn check_fit(values: &[Value], counts: &[usize]) -> RedisResult<()>
    requires { length values.now ≡ length counts.now }
    ensures { MatchResult result
        (λ _. first_misfit (map view values.now) counts.now ≡ None)
        (λ fault. first_misfit (map view values.now) counts.now ≡ Some fault.kind) }
{
    for k in 0..values.len() {
        let Some(items) = values[k].as_array() else {
            return Err(RedisError::from((
                ErrorKind::UnexpectedReturnType,
                "a reply is not an array",
            )));
        };
        if items.len() != counts[k] {
            return Err(RedisError::from((
                ErrorKind::Client,
                "a reply does not have as many items as its list has places",
            )));
        }
    }
    Ok(())
}
