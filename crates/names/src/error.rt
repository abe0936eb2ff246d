//! Parse errors.

ghost use Rattle.std.specs.Prelude.{◌≡◌, Some};
ghost use Rattle.names.specs.Codes.{code_rank, code_text};

use std::fmt;

/// The code of a parse error: those of the input stream, then those of the tokenizer (HTML Standard, `#parse-errors`), then those of
/// the tree rules, each in the order of their texts.
#[derive(Clone, Copy, PartialEq, Eq)]
#[rattlefmt::skip]
pub enum ErrorCode {
    ControlCharacterInInputStream, NoncharacterInInputStream, ReplacedBytes,
    AbruptClosingOfEmptyComment, AbruptDoctypePublicIdentifier, AbruptDoctypeSystemIdentifier,
    AbsenceOfDigitsInNumericCharacterReference, CdataInHtmlContent,
    CharacterReferenceOutsideUnicodeRange, ControlCharacterReference, DuplicateAttribute,
    EndTagWithAttributes, EndTagWithTrailingSolidus, EofBeforeTagName, EofInComment, EofInDoctype,
    EofInScriptHtmlCommentLikeText, EofInTag, IncorrectlyClosedComment, IncorrectlyOpenedComment,
    InvalidCharacterSequenceAfterDoctypeName, InvalidFirstCharacterOfTagName, MissingAttributeValue,
    MissingDoctypeName, MissingDoctypePublicIdentifier, MissingDoctypeSystemIdentifier,
    MissingEndTagName, MissingQuoteBeforeDoctypePublicIdentifier,
    MissingQuoteBeforeDoctypeSystemIdentifier, MissingSemicolonAfterCharacterReference,
    MissingWhitespaceAfterDoctypePublicKeyword, MissingWhitespaceAfterDoctypeSystemKeyword,
    MissingWhitespaceBeforeDoctypeName, MissingWhitespaceBetweenAttributes,
    MissingWhitespaceBetweenDoctypePublicAndSystemIdentifiers, NestedComment,
    NoncharacterCharacterReference, NullCharacterReference, SurrogateCharacterReference,
    UnexpectedCharacterAfterDoctypeSystemIdentifier, UnexpectedCharacterInAttributeName,
    UnexpectedCharacterInUnquotedAttributeValue, UnexpectedEqualsSignBeforeAttributeName,
    UnexpectedNullCharacter, UnexpectedQuestionMarkInsteadOfTagName, UnexpectedSolidusInTag,
    UnknownNamedCharacterReference, NonVoidHtmlElementStartTagWithTrailingSolidus,
    TreeAfterAfterBody, TreeAfterBody, TreeAfterHead, TreeBeforeHead, TreeBeforeHtml, TreeInBody,
    TreeInCaption, TreeInCell, TreeInColumnGroup, TreeInHead, TreeInHeadNoscript, TreeInRow,
    TreeInTable, TreeInTableBody, TreeInTableText, TreeInitial, TreeText,
}

/// A parse error, and where it is: a byte offset of the input, from 0.
#[derive(Clone, Copy, Debug, PartialEq, Eq)]
pub struct ParseError {
    pub code: ErrorCode,
    pub at: u64,
}

/// The texts of the codes, each at the rank of its code.
#[rattlefmt::skip]
static TEXTS: [&str; 65] = [
    "control-character-in-input-stream", "noncharacter-in-input-stream", "replaced-bytes",
    "abrupt-closing-of-empty-comment", "abrupt-doctype-public-identifier",
    "abrupt-doctype-system-identifier", "absence-of-digits-in-numeric-character-reference",
    "cdata-in-html-content", "character-reference-outside-unicode-range",
    "control-character-reference", "duplicate-attribute", "end-tag-with-attributes",
    "end-tag-with-trailing-solidus", "eof-before-tag-name", "eof-in-comment", "eof-in-doctype",
    "eof-in-script-html-comment-like-text", "eof-in-tag", "incorrectly-closed-comment",
    "incorrectly-opened-comment", "invalid-character-sequence-after-doctype-name",
    "invalid-first-character-of-tag-name", "missing-attribute-value", "missing-doctype-name",
    "missing-doctype-public-identifier", "missing-doctype-system-identifier",
    "missing-end-tag-name", "missing-quote-before-doctype-public-identifier",
    "missing-quote-before-doctype-system-identifier", "missing-semicolon-after-character-reference",
    "missing-whitespace-after-doctype-public-keyword",
    "missing-whitespace-after-doctype-system-keyword", "missing-whitespace-before-doctype-name",
    "missing-whitespace-between-attributes",
    "missing-whitespace-between-doctype-public-and-system-identifiers", "nested-comment",
    "noncharacter-character-reference", "null-character-reference", "surrogate-character-reference",
    "unexpected-character-after-doctype-system-identifier",
    "unexpected-character-in-attribute-name", "unexpected-character-in-unquoted-attribute-value",
    "unexpected-equals-sign-before-attribute-name", "unexpected-null-character",
    "unexpected-question-mark-instead-of-tag-name", "unexpected-solidus-in-tag",
    "unknown-named-character-reference", "non-void-html-element-start-tag-with-trailing-solidus",
    "tree-after-after-body", "tree-after-body", "tree-after-head", "tree-before-head",
    "tree-before-html", "tree-in-body", "tree-in-caption", "tree-in-cell", "tree-in-column-group",
    "tree-in-head", "tree-in-head-noscript", "tree-in-row", "tree-in-table", "tree-in-table-body",
    "tree-in-table-text", "tree-initial", "tree-text",
];

impl ErrorCode {
    /// The code as the HTML Standard spells it, and as it is printed. A code of the tree rules is `tree-` and the mode.
    pub fn text(self) -> &'static str
        ensures { result.now ≡ code_text self }
    {
        TEXTS[self as usize]
    }

    /// The order of the errors at one byte: those of the input stream, of the tokenizer and of the tree rules, each group
    /// sorted by the bytes of its texts.
    pub fn rank(self) -> u8
        ensures { result ≡ code_rank self }
    {
        self as u8
    }
}

impl fmt::Debug for ErrorCode {
    ghost debug_output = { λ code. Some (code_text code) };

    fn fmt<W: fmt::Write>(&self, f: &mut fmt::Formatter<W>) -> fmt::Result {
        f.write_str(self.text())
    }
}
