//! Kinds of raw text, and the start tags that are left out of the profile.

ghost use Rattle.std.specs.Prelude.{◌≡◌};
ghost use Rattle.names.specs.RefusedNames.{refused_text};
ghost use Rattle.names.specs.Sets.{is_refused, raw_kind, refused_name};

use crate::tag::Tag;

/// How the text after a start tag is read (HTML Standard, `#rcdata-state` to `#plaintext-state`): as markup, or in one of four raw ways.
#[derive(Clone, Copy, Debug, PartialEq, Eq)]
pub enum RawKind {
    None,
    Rcdata,
    Rawtext,
    Script,
    Plaintext,
}

/// A start tag that is left out of the profile.
#[derive(Clone, Copy, Debug, PartialEq, Eq)]
pub enum RefusedName {
    Math,
    Svg,
    Template,
    Select,
    Option,
    Optgroup,
    Frame,
    Frameset,
    Keygen,
}

impl RefusedName {
    /// The name as it is written.
    pub fn text(self) -> &'static str
        ensures { result.now ≡ refused_text self }
    {
        match self {
            RefusedName::Math => "math",
            RefusedName::Svg => "svg",
            RefusedName::Template => "template",
            RefusedName::Select => "select",
            RefusedName::Option => "option",
            RefusedName::Optgroup => "optgroup",
            RefusedName::Frame => "frame",
            RefusedName::Frameset => "frameset",
            RefusedName::Keygen => "keygen",
        }
    }
}

impl Tag {
    /// The refused name, if it is one.
    #[inline(always)]
    pub fn refused_name(self) -> Option<RefusedName>
        ensures { result ≡ refused_name self }
    {
        match self {
            Tag::Math => Some(RefusedName::Math),
            Tag::Svg => Some(RefusedName::Svg),
            Tag::Template => Some(RefusedName::Template),
            Tag::Select => Some(RefusedName::Select),
            Tag::Option => Some(RefusedName::Option),
            Tag::Optgroup => Some(RefusedName::Optgroup),
            Tag::Frame => Some(RefusedName::Frame),
            Tag::Frameset => Some(RefusedName::Frameset),
            Tag::Keygen => Some(RefusedName::Keygen),
            _ => None,
        }
    }

    /// Whether a start tag of the name is left out of the profile.
    pub fn is_refused(self) -> bool
        ensures { result ≡ is_refused self }
    {
        self.refused_name().is_some()
    }

    /// How the text after a start tag of the name is read.
    #[inline(always)]
    pub fn raw_kind(self) -> RawKind
        ensures { result ≡ raw_kind self }
    {
        match self {
            Tag::Title | Tag::Textarea => RawKind::Rcdata,
            Tag::Style | Tag::Xmp | Tag::Iframe | Tag::Noembed | Tag::Noframes => RawKind::Rawtext,
            Tag::Script => RawKind::Script,
            Tag::Plaintext => RawKind::Plaintext,
            _ => RawKind::None,
        }
    }
}
