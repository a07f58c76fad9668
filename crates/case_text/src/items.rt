// Reads the items of a list's line, which are `v`, `n*v` and `n*(v w+ ..)`.
ghost use Rattle.std.specs.Prelude.{◌+◌, ◌++◌, ◌≡◌, ◌<◌, ◌≤◌, length, IfSome, IsSome};

/// A group of numbers, and how often it is said.
#[derive(Clone, Copy)]
pub struct Item<'a> {
    pub times: u32,
    pub group: &'a [u8],
}

/// The text before the first byte that passes a test, and the text from that byte on; all and nothing where none passes.
pub fn cut<F: FnMut(&u8) -> bool + Drop>(text: &[u8], test: F) -> (&[u8], &[u8])
    requires { F.IsAlwaysCallable test }
    ensures parts { text.now ≡ result.0.now ++ result.1.now }
    ensures lengths { length result.0.now + length result.1.now ≡ length text.now }
{
    let end = text.iter().position(test).unwrap_or(text.len());
    text.split_at(end)
}

/// The number that a text begins with by digits alone (`parse` would take a sign too), and the text behind them.
fn number(text: &[u8]) -> Option<(u32, &[u8])>
    ensures { IfSome result (λ (number, behind). length behind.now < length text.now) }
{
    let (mut number, mut rest) = (0u32, text);
    while let Some((digit, others)) = rest.split_first() {
        if !digit.is_ascii_digit() {
            break;
        }
        number = number
            .checked_mul(10)?
            .checked_add(u32::from(*digit - b'0'))?;
        rest = others;
    }
    if rest.len() == text.len() {
        return None;
    }
    Some((number, rest))
}

/// The number that is all of a text.
pub fn only_number(text: &[u8]) -> Option<u32> {
    match number(text)? {
        (number, []) => Some(number),
        _ => None,
    }
}

/// The number of a text's first word as it is in a group's turn, where `v+` is more by one at each turn, and the text behind
/// the word.
pub fn first_number(text: &[u8], turn: u32) -> Option<(u32, &[u8])>
    ensures { IfSome result (λ (number, behind). length behind.now < length text.now) }
{
    let (first, after) = number(text)?;
    let (number, behind) = match after.strip_prefix(b"+") {
        Some(behind) => (first.checked_add(turn)?, behind),
        None => (first, after),
    };
    if behind.first().is_some_and(|b| *b != b' ') {
        return None;
    }
    Some((number, behind))
}

/// An item and the text behind it. A group begins with a number, so that each turn fills some of a list's room.
fn checked<'a>(times: u32, group: &'a [u8], behind: &'a [u8]) -> Option<(Item<'a>, &'a [u8])>
    ensures some { IfSome result (λ (item, after). after.now ≡ behind.now) }
    ensures number { IsSome result → 0 < length group.now }
{
    if !group.first()?.is_ascii_digit() {
        return None;
    }
    Some((Item { times, group }, behind))
}

/// The item whose group ends at a bracket, which must be there and end the item.
fn bracketed(times: u32, text: &[u8]) -> Option<(Item<'_>, &[u8])>
    ensures { IfSome result (λ (item, behind). length behind.now < length text.now) }
{
    let (group, bracket) = cut(text, |b| *b == b')');
    let (_, behind) = bracket.split_first()?;
    if behind.first().is_some_and(|b| *b != b' ') {
        return None;
    }
    checked(times, group, behind)
}

/// The item whose group ends with its word.
fn plain(times: u32, text: &[u8]) -> Option<(Item<'_>, &[u8])>
    ensures { IfSome result (λ (item, behind). length behind.now < length text.now) }
{
    let (group, behind) = cut(text, |b| *b == b' ');
    checked(times, group, behind)
}

/// The item that a text begins with, and the text behind it, unless the item is malformed.
pub fn first_item(text: &[u8]) -> Option<(Item<'_>, &[u8])>
    ensures { IfSome result (λ (item, behind). length behind.now < length text.now) }
{
    let (times, after) = number(text)?;
    let Some(said) = after.strip_prefix(b"*") else {
        return plain(1, text);
    };
    match said.strip_prefix(b"(") {
        Some(inside) => bracketed(times, inside),
        None => plain(times, said),
    }
}
