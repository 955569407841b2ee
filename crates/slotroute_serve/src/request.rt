ghost use Rattle.std.specs.Prelude.{◌≡◌, ◌≢◌, ℕ, List, ◌∷◌, [], ◌↔◌, codes, map, string_bytes, IsTrue, MatchOption};
ghost use Rattle.slotroute_serve.specs.declared.direction.Direction.{Direction as Way};
ghost use Rattle.slotroute_serve.specs.Output.{IsUsage, IsDirected, MayNameStrategy, direction_word};
ghost use Rattle.slotroute_serve.specs.Requests.{AsksFor};

use crate::direction::Direction;
use crate::strategy::named_strategy;

/// What the words ask for.
#[derive(Drop)]
pub enum Request<'a> {
    /// To answer a question about the map.
    Answer(Question<'a>),
    /// To run the commands that follow the map.
    Run(Direction),
}

/// A question about the map.
#[derive(Drop)]
pub enum Question<'a> {
    /// The node of a key.
    Node(&'a [u8]),
    /// The parts of the command with these words.
    Split(&'a [String]),
}

/// The request of the words `node KEY`, `split WORD ..` or `run forward|reverse ..`.
pub fn request_of(words: &[String]) -> Option<Request<'_>>
    ensures { MatchOption result
        (¬ (IsUsage (map string_bytes words.now)))
        (AsksFor (map string_bytes words.now)) }
{
    let [word, rest @ ..] = words else {
        return None;
    };
    match word.as_str() {
        "node" => node_request(rest),
        "split" => split_request(rest),
        "run" => run_request(rest),
        _ => None,
    }
}

fn node_request(words: &[String]) -> Option<Request<'_>>
    ensures { MatchOption result
        ((key : List ℕ) → map string_bytes words.now ≢ key ∷ [])
        (AsksFor (codes "node" ∷ map string_bytes words.now)) }
{
    match words {
        [key] => Some(Request::Answer(Question::Node(key.as_bytes()))),
        _ => None,
    }
}

fn split_request(words: &[String]) -> Option<Request<'_>>
    ensures { MatchOption result
        (map string_bytes words.now ≡ [])
        (AsksFor (codes "split" ∷ map string_bytes words.now)) }
{
    if words.is_empty() {
        return None;
    }
    Some(Request::Answer(Question::Split(words)))
}

fn run_request(words: &[String]) -> Option<Request<'_>>
    ensures { MatchOption result
        ((direction : Way) → ¬ (IsDirected direction (map string_bytes words.now)))
        (AsksFor (codes "run" ∷ map string_bytes words.now)) }
{
    match direction_of(words) {
        Some(direction) => Some(Request::Run(direction)),
        None => None,
    }
}

/// The direction of the words after `run`.
fn direction_of(words: &[String]) -> Option<Direction>
    ensures { MatchOption result
        ((direction : Way) → ¬ (IsDirected direction (map string_bytes words.now)))
        (λ direction. IsDirected direction (map string_bytes words.now)) }
{
    let [direction, rest @ ..] = words else {
        return None;
    };
    if !may_name_strategy(rest) {
        return None;
    }
    direction_by(direction.as_str())
}

/// The direction that a word names.
fn direction_by(word: &str) -> Option<Direction>
    ensures { MatchOption result
        ((direction : Way) → word.now ≢ direction_word direction)
        (λ direction. word.now ≡ direction_word direction) }
{
    match word {
        "forward" => Some(Direction::Forward),
        "reverse" => Some(Direction::Reverse),
        _ => None,
    }
}

/// Whether there is no word, or one that names a strategy.
fn may_name_strategy(words: &[String]) -> bool
    ensures { IsTrue result ↔ MayNameStrategy (map string_bytes words.now) }
{
    match words {
        [] => true,
        [word] => named_strategy(word.as_bytes()).is_some(),
        _ => false,
    }
}
