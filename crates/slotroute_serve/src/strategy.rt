ghost use Rattle.std.specs.Prelude.{map, string_bytes, MatchOption};
ghost use Rattle.slotroute_serve.specs.Output.{IsStrategyWord, NamesStrategy, IsRunBy};

use cluster_slots::parse_u64;

/// A strategy, as the last word of `run` names it.
#[derive(Debug, Drop)]
pub enum StrategyName {
    /// `first`.
    First,
    /// `pick=N`, with this number.
    Pick(u64),
    /// `shard`.
    Shard,
}

/// The strategy that the words `run DIRECTION WORD` name. `None` for other words.
pub fn strategy_of(words: &[String]) -> Option<StrategyName>
    ensures { MatchOption result
        ((strategy : StrategyName) → ¬ (IsRunBy strategy (map string_bytes words.now)))
        (λ strategy. IsRunBy strategy (map string_bytes words.now)) }
{
    let [command, _, word] = words else {
        return None;
    };
    match command.as_str() {
        "run" => named_strategy(word.as_bytes()),
        _ => None,
    }
}

pub(super) fn named_strategy(word: &[u8]) -> Option<StrategyName>
    ensures { MatchOption result (¬ (IsStrategyWord word.now)) (NamesStrategy word.now) }
{
    if word == b"first".as_slice() {
        return Some(StrategyName::First);
    }
    if word == b"shard".as_slice() {
        return Some(StrategyName::Shard);
    }
    let digits = word.strip_prefix(b"pick=")?;
    Some(StrategyName::Pick(parse_u64(digits)?))
}
