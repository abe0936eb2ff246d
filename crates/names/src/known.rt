//! The names with which every table begins.

ghost use Rattle.std.specs.Prelude.{◌≡◌, ◌<◌, IfSome, MatchOption, bytes_eq, slice_get, Some, false};
ghost use Rattle.std.specs.List.{list_any};
ghost use Rattle.names.specs.Table.{letter_of};
ghost use Rattle.names.specs.Tags.{known};

use crate::tags::TAGS;

/// How many there are: the tags', and `type`.
pub(crate) const KNOWN: usize = 128;

/// The name of the attribute that says whether an input is hidden.
const TYPE: &str = "type";

/// Where the tags that begin with each letter begin among the tags, which are in the order of their texts; last, how many there are.
static FIRST: [u8; 27] = [
    0, 7, 18, 24, 34, 36, 44, 44, 55, 61, 61, 63, 67, 73, 78, 83, 87, 88, 93, 109, 122, 124, 125,
    126, 127, 127, 127,
];

pub(crate) fn known_text(index: usize) -> &'static str
    requires { index < KNOWN }
    ensures { Some result.now ≡ slice_get known index }
{
    match TAGS.get(index) {
        Some(tag) => tag.text(),
        None => TYPE,
    }
}

/// Which letter a text begins with, from 0 for `a`.
fn letter_of(text: &str) -> Option<usize>
    ensures letter { result ≡ letter_of text.now }
    ensures few { IfSome result (λ letter. letter < 26) }
{
    let letter = text.as_bytes().first()?.checked_sub(b'a')?;
    (letter < 26).then_some(usize::from(letter))
}

/// The number of a text, where it is that of a known name.
pub(crate) fn known_number(text: &str) -> Option<u32>
    ensures { MatchOption result (list_any (bytes_eq text.now) known ≡ false) (λ n. slice_get known n ≡ Some text.now) }
{
    let letter = letter_of(text)?;
    let end = FIRST[letter + 1] as usize;
    for index in FIRST[letter] as usize..end {
        if TAGS[index].text() == text {
            return Some(index as u32);
        }
    }
    (text == TYPE).then_some(TAGS.len() as u32)
}
