ghost use Rattle.std.specs.Prelude.{◌≡◌, ◌<◌, map, true, length};
ghost use Rattle.std.specs.Str.{bytes_eq};
ghost use Rattle.redis_routing.specs.Lookup.{lookup_name, has_name, ascends};
ghost use Rattle.redis_routing.specs.Places.{name_hash, word_hash, row_of, stand_at_their_rows, value_at};

/// What stands beside the name in this row of a table, if the row has the name.
#[inline(always)]
pub(super) fn value_at<V: Copy>(rows: &[(&[u8], V)], row: usize, name: &[u8]) -> Option<V>
    ensures { result ≡ value_at (map (λ row. (row.0.now, row.1)) rows.now) row name.now }
{
    let (known, value) = rows.get(row)?;
    if are_same(known, name) {
        Some(*value)
    } else {
        None
    }
}

/// Whether two names have the same bytes. Most have four to eight, of which the first four and the
/// last four are all.
#[inline(always)]
fn are_same(known: &[u8], name: &[u8]) -> bool
    ensures { result ≡ bytes_eq known.now name.now }
{
    let len = known.len();
    if name.len() != len {
        return false;
    }
    if len < 4 || 8 < len {
        return are_equal(known, name);
    }
    name.starts_with(&known[..4]) && name.ends_with(&known[len - 4..])
}

/// Whether two names have the same bytes. It is not inlined, so that its callers stay small.
#[inline(never)]
fn are_equal(known: &[u8], name: &[u8]) -> bool
    ensures { result ≡ bytes_eq known.now name.now }
{
    known == name
}

/// Whether the word is one of these first words, which stand at their places.
pub(super) fn is_placed(words: &[&[u8]], places: &[u8], word: &[u8]) -> bool
    requires some { 0 < length places.now }
    requires placed { stand_at_their_rows (λ word. row_of places.now (word_hash word))
        (map (λ w. w.now) words.now) ≡ true }
    ensures { result ≡ has_name (map (λ w. w.now) words.now) word.now }
{
    let place = row_of(places, word_hash(word));
    place < words.len() && words[place] == word
}

/// The place that a list of places has for a number.
pub(super) fn row_of(places: &[u8], number: usize) -> usize
    requires { 0 < length places.now }
    ensures { result ≡ row_of places.now number }
{
    usize::from(places[number % places.len()])
}

/// A number for a name by five of its bytes, by which a table or a set finds it. It is 0 for a name
/// of fewer than three.
pub(super) fn name_hash(name: &[u8]) -> usize
    ensures { result ≡ name_hash name.now }
{
    let len = name.len();
    if len < 3 {
        return 0;
    }
    // Each factor is a shift or two. By these all names of the tables differ.
    let two = usize::from(name[len.saturating_sub(7)]) * 4 + usize::from(name[0]);
    let three = two * 15 + usize::from(name[(len - 3) / 2]);
    let four = three * 9 + usize::from(name[len - 1]);
    four * 33 + usize::from(name[len - 3])
}

/// A number for a first word by two of its bytes, by which those that take a second word differ. It
/// is 0 for a word of fewer than two.
fn word_hash(word: &[u8]) -> usize
    ensures { result ≡ word_hash word.now }
{
    let len = word.len();
    if len < 2 {
        return 0;
    }
    usize::from(word[1]) * 3 + usize::from(word[len - 1])
}

/// What stands beside the name in a table of a few rows, which are gone over one by one.
pub fn look_up<V: Copy>(rows: &[(&[u8], V)], name: &[u8]) -> Option<V>
    ensures { result ≡ lookup_name (map (λ row. (row.0.now, row.1)) rows.now) name.now }
{
    for row in rows {
        if row.0 == name {
            return Some(row.1);
        }
    }
    None
}

/// Whether the name is one of these ascending names.
pub fn contains(names: &[&[u8]], name: &[u8]) -> bool
    requires { ascends (map (λ n. n.now) names.now) ≡ true }
    ensures { result ≡ has_name (map (λ n. n.now) names.now) name.now }
{
    match names.binary_search(&name) {
        Ok(_) => true,
        Err(_) => false,
    }
}
