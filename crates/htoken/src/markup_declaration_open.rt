//! What `<!` begins: a comment, a doctype, or what is read as a comment (HTML Standard, `#markup-declaration-open-state`).

ghost use Rattle.std.specs.Prelude.{◌≡◌, ◌==◌, true};
ghost use Rattle.htoken.specs.Vocabulary.{all, is_plain_in_bogus, OpensAs, folded_as, spells_as};

use names::Placed;

/// What the characters after `<!` open.
#[derive(Clone, Copy)]
pub(crate) enum Opens {
    /// Nothing yet: they are too few.
    Nothing,
    /// A comment: they are its mark.
    Comment,
    /// A doctype.
    Doctype,
    /// A CDATA section, which is a bogus comment: only foreign elements have one (`#markup-declaration-open-state`).
    Cdata,
    /// None of these, so a bogus comment.
    Bogus,
}

/// How many characters show what `<!` opens: `doctype` and `[CDATA[` have as many.
const ENOUGH: usize = 7;

/// Whether a character is this byte of a word, which is in lower case if the character may be in any case.
pub(crate) fn is_read_as(ch: char, byte: u8, any_case: bool) -> bool
    ensures { result ≡ (folded_as any_case ch == byte) }
{
    if any_case {
        return u32::from(ch.to_ascii_lowercase()) == u32::from(byte);
    }
    u32::from(ch) == u32::from(byte)
}

/// Whether a text begins with a word, in any case or as it is.
fn spells(word: &[u8], text: &[Placed], any_case: bool) -> bool
    ensures { result ≡ spells_as any_case word.now text.now }
{
    if text.len() < word.len() {
        return false;
    }
    for (index, byte) in word.iter().enumerate() {
        if !is_read_as(text[index].ch, *byte, any_case) {
            return false;
        }
    }
    true
}

/// What a text after `<!` opens, which opened nothing without its last character.
pub(crate) fn opened_by(text: &[Placed]) -> Opens
    ensures { OpensAs result text.now }
{
    if spells(b"--", text, false) {
        Opens::Comment
    } else if text.len() < ENOUGH {
        Opens::Nothing
    } else if spells(b"doctype", text, true) {
        Opens::Doctype
    } else if spells(b"[CDATA[", text, false) {
        Opens::Cdata
    } else {
        Opens::Bogus
    }
}

/// Whether a character neither ends a bogus comment nor is a fault in it. No mark has one that does.
pub(crate) fn is_plain(ch: char) -> bool
    ensures { result ≡ is_plain_in_bogus ch }
{
    ch != '>' && ch != '\0'
}

/// The front of a text before the first character that is not plain. What is held after `<!` has none.
pub(crate) fn plain_front(text: &[Placed]) -> &[Placed]
    ensures plain { all is_plain_in_bogus result.now ≡ true }
    ensures whole { all is_plain_in_bogus text.now ≡ true → result.now ≡ text.now }
{
    for (index, p) in text.iter().enumerate() {
        if !is_plain(p.ch) {
            return &text[..index];
        }
    }
    text
}
