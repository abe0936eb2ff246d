//! Names of attributes that are plain.

ghost use Rattle.std.specs.Prelude.{◌≡◌, ◌<◌, map, Some};
ghost use Rattle.std.specs.List.{list_all};
ghost use Rattle.hserialize.specs.Vocabulary.{are_plain_attributes, attributes_of, has_plain_name, is_plain_name_byte, is_plain_name, mapped_attribute, names_end, text_of, ArePlainTo};

use hnodes::{Attrs, NodeId, Tree};
use names::Names;

fn is_plain_name_byte(byte: u8) -> bool
    ensures { result ≡ is_plain_name_byte byte }
{
    matches!(byte, b'a'..=b'z' | b'0'..=b'9' | b'-' | b'_' | b':')
}

fn are_name_bytes(bytes: &[u8]) -> bool
    ensures { result ≡ list_all is_plain_name_byte bytes.now }
{
    bytes.iter().all(|&byte| is_plain_name_byte(byte))
}

/// Whether a name is plain: a lower letter, then lower letters, digits, `-`, `_` and `:`.
pub fn is_plain_name(name: &str) -> bool
    ensures { result ≡ is_plain_name name.now }
{
    match name.as_bytes() {
        [first, rest @ ..] => first.is_ascii_lowercase() && are_name_bytes(rest),
        [] => false,
    }
}

/// A table of names, and a number up to which they are all plain.
#[derive(Drop)]
pub(crate) struct PlainNames<'a> {
    pub(crate) table: &'a Names,
    end: usize,
    ghost plain: { ArePlainTo (text_of table.now) end },
}

impl<'a> PlainNames<'a> {
    pub(crate) fn of(table: &'a Names) -> PlainNames<'a>
        ensures { result.table.now ≡ table.now }
    {
        for end in 0..usize::MAX {
            match table.nth(end) {
                Some(name) if is_plain_name(name) => {}
                _ => return PlainNames { table, end },
            }
        }
        let end = usize::MAX;
        PlainNames { table, end }
    }

    /// Whether the names of all these attributes, whose numbers end here, are plain.
    fn are_plain(&self, end: usize, attrs: Attrs) -> bool
        requires { end ≡ names_end attrs }
        ensures { result ≡ list_all (has_plain_name (text_of self.now.table.now)) attrs.entry }
    {
        if end <= self.end {
            return true;
        }
        for (name, _) in attrs {
            if !is_plain_name(self.table.text(name)) {
                return false;
            }
        }
        true
    }

    /// Whether the attributes of an element are plain.
    pub(crate) fn are_plain_attributes(&self, tree: &Tree, node: NodeId, attrs: Attrs) -> bool
        requires made { node < tree.now.made }
        requires own { attributes_of node tree.now.trees ≡ Some attrs }
        ensures { result ≡ are_plain_attributes (map (mapped_attribute (text_of self.now.table.now)) attrs.entry) }
    {
        prove!(self.table.are_names());
        if attrs.len() == 0 {
            return true;
        }
        if !self.are_plain(tree.attr_names_end(node), attrs) {
            return false;
        }
        tree.attrs_clean(node) && tree.attrs_differ(node)
    }
}
