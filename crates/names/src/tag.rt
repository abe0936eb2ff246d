//! The names of tags that the rules mention.

ghost use Rattle.std.specs.Prelude.{◌≡◌, Some};
ghost use Rattle.names.specs.Tags.{tag_text};

use std::fmt;

/// The name of a tag: one that a parsing rule, a set of names or the table of plain content mentions, or any other.
#[derive(Clone, Copy, PartialEq, Eq)]
#[rattlefmt::skip]
pub enum Tag {
    A, Abbr, Address, Applet, Area, Article, Aside, B, Base, Basefont, Bdi, Bdo, Bgsound, Big,
    Blockquote, Body, Br, Button, Caption, Center, Cite, Code, Col, Colgroup, Data, Dd, Del,
    Details, Dfn, Dialog, Dir, Div, Dl, Dt, Em, Embed, Fieldset, Figcaption, Figure, Font, Footer,
    Form, Frame, Frameset, H1, H2, H3, H4, H5, H6, Head, Header, Hgroup, Hr, Html, I, Iframe, Image,
    Img, Input, Ins, Kbd, Keygen, Label, Li, Link, Listing, Main, Mark, Marquee, Math, Menu, Meta,
    Nav, Nobr, Noembed, Noframes, Noscript, Object, Ol, Optgroup, Option, Output, P, Param,
    Plaintext, Pre, Q, Rb, Rp, Rt, Rtc, Ruby, S, Samp, Script, Search, Section, Select, Small,
    Source, Span, Strike, Strong, Style, Sub, Summary, Sup, Svg, Table, Tbody, Td, Template,
    Textarea, Tfoot, Th, Thead, Time, Title, Tr, Track, Tt, U, Ul, Var, Wbr, Xmp, Other,
}

/// The texts of the tags, each at the index of its tag in the enum.
#[rattlefmt::skip]
static TEXTS: [&str; 128] = [
    "a", "abbr", "address", "applet", "area", "article", "aside", "b", "base", "basefont", "bdi",
    "bdo", "bgsound", "big", "blockquote", "body", "br", "button", "caption", "center", "cite",
    "code", "col", "colgroup", "data", "dd", "del", "details", "dfn", "dialog", "dir", "div", "dl",
    "dt", "em", "embed", "fieldset", "figcaption", "figure", "font", "footer", "form", "frame",
    "frameset", "h1", "h2", "h3", "h4", "h5", "h6", "head", "header", "hgroup", "hr", "html", "i",
    "iframe", "image", "img", "input", "ins", "kbd", "keygen", "label", "li", "link", "listing",
    "main", "mark", "marquee", "math", "menu", "meta", "nav", "nobr", "noembed", "noframes",
    "noscript", "object", "ol", "optgroup", "option", "output", "p", "param", "plaintext", "pre",
    "q", "rb", "rp", "rt", "rtc", "ruby", "s", "samp", "script", "search", "section", "select",
    "small", "source", "span", "strike", "strong", "style", "sub", "summary", "sup", "svg", "table",
    "tbody", "td", "template", "textarea", "tfoot", "th", "thead", "time", "title", "tr", "track",
    "tt", "u", "ul", "var", "wbr", "xmp", "",
];

impl Tag {
    /// The name as it is written; empty for `Other`.
    pub fn text(self) -> &'static str
        ensures { result.now ≡ tag_text self }
    {
        TEXTS[self as usize]
    }
}

impl fmt::Debug for Tag {
    ghost debug_output = { λ tag. Some (tag_text tag) };

    fn fmt<W: fmt::Write>(&self, f: &mut fmt::Formatter<W>) -> fmt::Result {
        f.write_str(self.text())
    }
}
