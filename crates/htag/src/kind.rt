//! Start tags and end tags.

/// Which tag it is: `<` begins a start tag, `</` an end tag.
#[derive(Clone, Copy)]
pub enum TagKind {
    Start,
    End,
}
