//! Laws of the cut of a text.

ghost use Rattle.htoken.specs.OneCut.{OnePart, OneTag, OneSpanOfData, OneSpan, OneCut, OneListOfTokens, NoTokensOfRefused, OneRefusal};
ghost use Rattle.htoken.specs.SomeCut.{SomeSpan, SomeCut, SomeAnswer, ExactlyOneCut, OneFront, OneFrontOfRefused};
ghost use Rattle.htoken.specs.SomeEnd.{TagsCanEnd};
ghost use Rattle.htoken.specs.Held.{HeldBegins};
ghost use Rattle.htoken.specs.Settled.{SettledAreTaken};

/// One part of a tag at most is at the front of the text after its name, and one tag at the front of a text.
pub fn one_tag()
    ensures parts { OnePart }
    ensures tags { OneTag }
{}

/// One span of data at most is at the front of a text, and one span of each other kind.
pub fn one_span()
    ensures in_data { OneSpanOfData }
    ensures in_any { OneSpan }
{}

/// A whole text is cut into spans in one way at most, so it has one list of tokens at most, and one of errors.
pub fn one_cut()
    ensures spans { OneCut }
    ensures tokens { OneListOfTokens }
{}

/// A text that is refused has no tokens, and it is refused for one name at one place, after one list of tokens.
pub fn one_refusal()
    ensures either { NoTokensOfRefused }
    ensures refusal { OneRefusal }
{}

/// Wherever a cut of a text comes, a span is at the front of what is left, so that a whole text is cut.
pub fn some_cut()
    ensures span { SomeSpan }
    ensures cut { SomeCut }
{}

/// A whole text has its tokens and errors, or is refused.
pub fn some_answer()
    ensures { SomeAnswer }
{}

/// A whole text is cut into spans in exactly one way, so that its tokens are the same however the bytes are cut into the pieces that it comes in.
pub fn exactly_one_cut()
    ensures { ExactlyOneCut }
{}

/// What a sink was handed before it refused is a front of the tokens of the text, or of those before the tag that it is refused for.
pub fn one_front()
    ensures whole { OneFront }
    ensures of_refused { OneFrontOfRefused }
{}

/// What a walk has read of a tag can always be completed: with more text after it, it is a whole tag, whatever follows.
pub fn some_end()
    ensures { TagsCanEnd }
{}

/// What a tokenizer holds back is a beginning of a longer span where its cut is; it begins at the place that `held_from` gives.
pub fn held_begins()
    ensures { HeldBegins }
{}

/// A tokenizer has handed over the tokens of every span that is at the front of its text whatever follows, and none of them is a
/// start tag that the profile leaves out.
pub fn settled_are_taken()
    ensures { SettledAreTaken }
{}
