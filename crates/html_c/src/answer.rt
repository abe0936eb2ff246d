//! What crosses between C and the library.

use std::mem::size_of;

/// The options of a call. A context or a list that is empty is none: a document, the core table of character references, no quirks by a list.
#[repr(C)]
#[derive(Clone, Copy)]
pub struct Given<'a> {
    /// The bytes of this struct. A later version may add fields at its end.
    pub size: usize,
    /// The name of the element in which a fragment is.
    pub context: &'a [u8],
    /// The table of character references: JSON, or a flat form of `jz_table`.
    pub entities: &'a [u8],
    /// The quirks list.
    pub quirks: &'a [u8],
    /// The most nodes: 16 to 16,777,216.
    pub nodes: u64,
    /// The most open elements: 16 to 1,048,576.
    pub open: u64,
    /// How many bytes are fed at a time: 1 to 65,536. No answer depends on it.
    pub piece: u64,
    /// The keys of the hashes: 16 random bytes where the input is not trusted. No answer depends on them.
    pub key_low: u64,
    pub key_high: u64,
    /// 1, or 2, which escapes `<` and `>` in attribute values.
    pub escaping: u32,
    /// 0 refuses bytes that are not UTF-8, 1 replaces them.
    pub bad_bytes: u32,
}

/// How a call went.
#[repr(C)]
#[derive(Clone, Copy)]
pub struct Answer {
    /// 0 where all was written, else the number of a refusal or of a fault of the call.
    pub status: u32,
    /// What a refusal names, from 1: an element that is left out of the profile, or what is wrong with a table of references.
    pub detail: u32,
    /// The byte of a refusal, from 0, or the line of a quirks list, from 1.
    pub at: u64,
    /// The bytes of the text, or of the words of a tree, whether there was room for them or not.
    pub length: u64,
    /// The nodes of a tree, whether there was room for them or not.
    pub nodes: u64,
}

/// A node of a tree: its number, its kind, and the nodes around it. A link to no node is 0xFFFFFFFF.
#[repr(C)]
#[derive(Clone, Copy)]
pub struct NodeRow {
    pub number: u32,
    /// 1 a doctype, 2 an element, 3 a comment, 4 a text.
    pub kind: u32,
    pub parent: u32,
    pub first_child: u32,
    pub next: u32,
}

/// A parse error: its byte in the input, and the number of its code, which is its rank.
#[repr(C)]
#[derive(Clone, Copy)]
pub struct ErrorRow {
    pub at: u64,
    pub code: u32,
}

/// How a node came to be.
#[repr(C)]
#[derive(Clone, Copy)]
pub struct OriginRow {
    /// The first byte of the token in whose step it was made; of a text, its first character.
    pub at: u64,
    /// 1 where that token is its own: an element's start tag, a comment, a doctype, a text's characters. 0 where it was made again, or
    /// the token implied it.
    pub in_source: u32,
    /// The element that it was made again of, or 0xFFFFFFFF.
    pub again_of: u32,
}

/// How a call for a page went. The lengths are answered whether there was room or not; that of a part that is not wanted is 0.
#[repr(C)]
#[derive(Clone, Copy)]
pub struct PageAnswer {
    /// As in [`Answer`], and so are the next two.
    pub status: u32,
    pub detail: u32,
    pub at: u64,
    /// The nodes of the tree.
    pub nodes: u64,
    /// The bytes of their words.
    pub words: u64,
    /// The parse errors.
    pub errors: u64,
    /// The bytes of the HTML.
    pub text: u64,
}

// The sizes that the header asserts.
const _: () = prove!(
    size_of::<Given<'static>>() == 104
        && size_of::<Answer>() == 32
        && size_of::<NodeRow>() == 20
        && size_of::<ErrorRow>() == 16
        && size_of::<OriginRow>() == 16
        && size_of::<PageAnswer>() == 48
);
