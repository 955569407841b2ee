//! Maps of ranges of slots: the first slot of a range, the last, and a value.
use cluster_map::SlotRangeMap;
use fixtures::{bad_row, debug_result, lines, number, pieces, plain, push_next, two};
use resp_core::RedisResult;
use std::alloc::Global;

/// What a call of this name returns.
pub fn call(alloc: Global, name: &str, words: &str) -> RedisResult<String> {
    match name {
        "inserted" => debug_result(alloc, inserted(alloc, words)),
        "extended" => debug_result(alloc, extended(alloc, words)),
        "copied" => debug_result(alloc, inserted(alloc, words)?.clone()),
        "listed" => listed(alloc, &inserted(alloc, words)?),
        "at" => at(alloc, words),
        _ => Err(bad_row("no call of this name")),
    }
}

/// The range of a line, and its value.
fn range(alloc: Global, line: &str) -> RedisResult<(u16, u16, String)> {
    let (start, rest) = two(line);
    let (end, value) = two(rest);
    Ok((number(start)?, number(end)?, plain(alloc, value)?))
}

/// The map after ranges are inserted, one after the other.
fn inserted(alloc: Global, words: &str) -> RedisResult<SlotRangeMap<String>> {
    let mut map = SlotRangeMap::new(alloc);
    for line in &lines(alloc, words)? {
        let (start, end, value) = range(alloc, line)?;
        map.insert(start, end, value)?;
    }
    Ok(map)
}

/// The map after ranges are inserted together.
fn extended(alloc: Global, words: &str) -> RedisResult<SlotRangeMap<String>> {
    let mut ranges = Vec::new(alloc);
    for line in &lines(alloc, words)? {
        ranges.push(range(alloc, line)?)?;
    }
    let mut map = SlotRangeMap::default(alloc);
    map.extend(ranges)?;
    Ok(map)
}

/// The ranges of a map in the order in which it lists them.
fn listed(alloc: Global, map: &SlotRangeMap<String>) -> RedisResult<String> {
    let mut text = String::new(alloc);
    for (start, end, value) in map.iter() {
        push_next(
            &mut text,
            "; ",
            &format!(in alloc; "{start} {end} {value}")?,
        )?;
    }
    Ok(text)
}

/// The values at some slots, if a map has the ranges after these.
fn at(alloc: Global, words: &str) -> RedisResult<String> {
    let (slots, ranges) = two(words);
    let map = inserted(alloc, ranges)?;
    let mut text = String::new(alloc);
    for slot in pieces(alloc, slots, ",")? {
        let value = map
            .get(number(slot)?)
            .map_or("none", |value| value.as_str());
        push_next(&mut text, " ", value)?;
    }
    Ok(text)
}
