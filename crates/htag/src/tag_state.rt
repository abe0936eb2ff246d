//! The states of a tag (HTML Standard, `#tokenization`).

/// Where in a tag a walk is.
#[derive(Clone, Copy)]
pub(crate) enum TagState {
    /// The tag name state (`#tag-name-state`).
    TagName,
    /// The before attribute name state (`#before-attribute-name-state`).
    BeforeAttributeName,
    /// The self-closing start tag state (`#self-closing-start-tag-state`).
    SelfClosingStartTag,
    /// The attribute name state (`#attribute-name-state`).
    AttributeName,
    /// The after attribute name state (`#after-attribute-name-state`).
    AfterAttributeName,
    /// The before attribute value state (`#before-attribute-value-state`).
    BeforeAttributeValue,
    /// The attribute value (double-quoted) or attribute value (single-quoted) state, by this quote
    /// (`#attribute-value-(double-quoted)-state`, `#attribute-value-(single-quoted)-state`).
    AttributeValueQuoted(char),
    /// The attribute value (unquoted) state (`#attribute-value-(unquoted)-state`).
    AttributeValueUnquoted,
    /// The after attribute value (quoted) state (`#after-attribute-value-(quoted)-state`).
    AfterAttributeValueQuoted,
}
