//! Parts of a sequence by places that may count from its end.
ghost use Rattle.std.specs.Prelude.{◌≡◌, chars, encode_utf8_all};
ghost use Rattle.liquid_strings.specs.meaning.Slices.{count_in, sliced, sliced_at, sliced_text, start_in};

use crate::truncation::{character_count, cut};

/// Returns the characters of the string from a place on, at most `count` of them. A place below 0 counts from the end.
pub fn slice(text: &str, start: i64, count: i64) -> &str
    ensures { result.now ≡ sliced_text start count text.now }
{
    slice_from(
        text,
        slice_start(character_count(text), start),
        slice_count(count),
    )
}

fn slice_from(text: &str, start: Option<usize>, count: usize) -> &str
    ensures { result.now ≡ encode_utf8_all (sliced_at start count (chars text.now)) }
{
    match start {
        Some(start) => cut(cut(text, start).1, count).0,
        None => "",
    }
}

/// Returns the items from a place on, at most `count` of them. A place below 0 counts from the end.
pub fn slice_items<T>(items: &[T], start: i64, count: i64) -> &[T]
    ensures { result.now ≡ sliced start count items.now }
{
    items_from(items, slice_start(items.len(), start), slice_count(count))
}

fn items_from<T>(items: &[T], start: Option<usize>, count: usize) -> &[T]
    ensures { result.now ≡ sliced_at start count items.now }
{
    match start {
        Some(start) => {
            let rest = &items[start.min(items.len())..];
            &rest[..count.min(rest.len())]
        }
        None => &[],
    }
}

/// Returns the place at which a slice of a sequence of that size begins, which may be past its end. Returns `None` if a
/// place below 0, which counts from the end, is before the first.
fn slice_start(size: usize, start: i64) -> Option<usize>
    ensures { result ≡ start_in size start }
{
    match usize::try_from(start) {
        Ok(start) => Some(start),
        Err(_) => size.checked_sub(start.unsigned_abs() as usize),
    }
}

/// Returns the greatest number of items of a slice, which is 0 if the count is below 0.
fn slice_count(count: i64) -> usize
    ensures { result ≡ count_in count }
{
    usize::try_from(count).unwrap_or(0)
}
