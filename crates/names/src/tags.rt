//! The known tags.

use crate::tag::Tag;
use crate::tag::Tag::*;

/// The known tags, each at the index that is its name's number.
pub(crate) static TAGS: [Tag; 127] = [
    A, Abbr, Address, Applet, Area, Article, Aside, B, Base, Basefont, Bdi, Bdo, Bgsound, Big,
    Blockquote, Body, Br, Button, Caption, Center, Cite, Code, Col, Colgroup, Data, Dd, Del,
    Details, Dfn, Dialog, Dir, Div, Dl, Dt, Em, Embed, Fieldset, Figcaption, Figure, Font, Footer,
    Form, Frame, Frameset, H1, H2, H3, H4, H5, H6, Head, Header, Hgroup, Hr, Html, I, Iframe,
    Image, Img, Input, Ins, Kbd, Keygen, Label, Li, Link, Listing, Main, Mark, Marquee, Math, Menu,
    Meta, Nav, Nobr, Noembed, Noframes, Noscript, Object, Ol, Optgroup, Option, Output, P, Param,
    Plaintext, Pre, Q, Rb, Rp, Rt, Rtc, Ruby, S, Samp, Script, Search, Section, Select, Small,
    Source, Span, Strike, Strong, Style, Sub, Summary, Sup, Svg, Table, Tbody, Td, Template,
    Textarea, Tfoot, Th, Thead, Time, Title, Tr, Track, Tt, U, Ul, Var, Wbr, Xmp,
];
