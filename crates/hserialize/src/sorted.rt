//! Attributes in the order of their names.

ghost use Rattle.std.specs.Prelude.{◌≡◌, ◌<◌, ◌≤◌, length, map, vec_capacity};
ghost use Rattle.hserialize.specs.Vocabulary.{text_of, mapped_attribute, pair_of, in_order};

use hnodes::Attrs;
use names::Names;

/// An attribute: the text of its name, its place among those of its element, and its value.
pub(crate) type NamedAttr<'a> = (&'a str, usize, &'a str);

/// Makes these the attributes in the order of the names' bytes; those of one name stay as they are. No memory is taken.
pub(crate) fn in_order<'a>(entries: &mut Vec<NamedAttr<'a>>, names: &'a Names, attrs: Attrs<'a>)
    requires { length attrs ≤ vec_capacity entries.old }
    ensures pairs { map pair_of entries.new.items ≡ in_order (map (mapped_attribute (text_of names.now)) attrs.entry) }
    ensures room { vec_capacity entries.old ≤ vec_capacity entries.new }
{
    entries.clear();
    for (name, value) in attrs {
        let place = entries.len();
        let is_added = entries.push((names.text(name), place, value)).is_ok();
        prove!(is_added);
    }
    entries.sort_unstable();
}
