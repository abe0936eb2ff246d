//! Where a list of trees is.

ghost use Rattle.std.specs.Prelude.{◌≡◌};
ghost use Rattle.hserialize.specs.Vocabulary.{is_nested, marked, inside_is, standing_in, standing_at_top};

use crate::content::{Content, Texts};
use crate::content_rows::row;
use names::Tag;

/// What is around a list of trees, with no marker between.
#[derive(Clone, Copy)]
pub(crate) struct Around {
    in_a: bool,
    in_button: bool,
    /// Whether it is in an element that takes phrasing elements alone.
    in_phrasing: bool,
}

impl Around {
    pub(crate) const ALONE: Around = Around {
        in_a: false,
        in_button: false,
        in_phrasing: false,
    };

    /// The same once an element of this name is entered, or left. An a, a button or an element of phrasing content is in none of
    /// its kind unless a marker is between, so leaving it undoes entering it.
    pub(crate) fn marked(mut self, tag: Tag, inside: bool) -> Around
        ensures { result ≡ marked tag inside self }
    {
        match tag {
            Tag::A => self.in_a = inside,
            Tag::Button => self.in_button = inside,
            _ if matches!(row(tag).1, Content::Phrasing) => self.in_phrasing = inside,
            _ => {}
        }
        self
    }
}

/// Where a list of trees is: its content and its texts, and what is around it.
#[derive(Clone, Copy)]
pub(crate) struct Standing {
    pub(crate) content: Content,
    pub(crate) texts: Texts,
    around: Around,
}

impl Standing {
    /// At the top: no texts are among the parts of a table.
    pub(crate) fn at_top(content: Content, around: Around) -> Standing
        ensures { result ≡ standing_at_top content around }
    {
        Standing {
            content,
            texts: match content {
                Content::Flow | Content::Text => Texts::Any,
                _ => Texts::None,
            },
            around,
        }
    }

    /// In an element of this name; phrasing elements alone or flow elements too may be around it.
    pub(crate) fn inside(tag: Tag, around: Around) -> Standing
        ensures { result ≡ standing_in tag around }
    {
        let content = match row(tag).1 {
            Content::Around if around.in_phrasing => Content::Phrasing,
            Content::Around => Content::Flow,
            own => own,
        };
        Standing {
            content,
            texts: content.texts(),
            around,
        }
    }

    /// Whether an a would be in an a, or a button in a button.
    pub(crate) fn is_nested(self, tag: Tag) -> bool
        ensures { result ≡ is_nested (inside_is self) tag }
    {
        match tag {
            Tag::A => self.around.in_a,
            Tag::Button => self.around.in_button,
            _ => false,
        }
    }
}
