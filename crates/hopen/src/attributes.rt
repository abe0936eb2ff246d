//! Which lists of attributes are equal.

ghost use Rattle.std.specs.Prelude.{◌≡◌, IfOk, map, nat_eq};
ghost use Rattle.std.specs.List.{list_any};
ghost use Rattle.hopen.specs.Vocabulary.{are_among, attribute_of, attr_numbers, same_attribute, same_attributes};

use hnodes::{FEW_ATTRIBUTES, IndexedList, index_attrs, name_number};
use names::Attr;
use std::alloc::{AllocError, Global};

fn is_same(x: &Attr, y: &Attr) -> bool
    ensures { result ≡ same_attribute nat_eq (attribute_of x.now) (attribute_of y.now) }
{
    x.name() == y.name() && x.value() == y.value()
}

fn contains(attrs: &[Attr], attr: &Attr) -> bool
    ensures { result ≡ list_any (same_attribute nat_eq (attribute_of attr.now)) (map attribute_of attrs.now) }
{
    attrs.iter().any(|other| is_same(attr, other))
}

fn are_found(attrs: &[Attr], others: &[Attr]) -> bool
    ensures { result ≡ are_among nat_eq (map attribute_of attrs.now) (map attribute_of others.now) }
{
    attrs.iter().all(|attr| contains(others, attr))
}

/// `contains`, by the numbers of the names: only attributes of the same name are looked at.
fn contains_by_name(names: &IndexedList, attrs: &[Attr], attr: &Attr) -> bool
    requires { names.now ≡ attr_numbers attrs.now }
    ensures { result ≡ list_any (same_attribute nat_eq (attribute_of attr.now)) (map attribute_of attrs.now) }
{
    let mut ordinal = names.last(name_number(attr.name()));
    while ordinal > 0 {
        if is_same(attr, &attrs[ordinal - 1]) {
            return true;
        }
        ordinal = names.before(ordinal);
    }
    false
}

/// `are_found`, by the numbers of the names of the others.
fn are_found_by_name(names: &IndexedList, attrs: &[Attr], others: &[Attr]) -> bool
    requires { names.now ≡ attr_numbers others.now }
    ensures { result ≡ are_among nat_eq (map attribute_of attrs.now) (map attribute_of others.now) }
{
    for attr in attrs {
        if !contains_by_name(names, others, attr) {
            return false;
        }
    }
    true
}

/// Whether each attribute of one list is in another. A long list is searched by its names.
fn are_all_in(alloc: Global, attrs: &[Attr], others: &[Attr]) -> Result<bool, AllocError>
    ensures { IfOk result (λ all. all ≡ are_among nat_eq (map attribute_of attrs.now) (map attribute_of others.now)) }
{
    if others.len() <= FEW_ATTRIBUTES {
        return Ok(are_found(attrs, others));
    }
    let names = index_attrs(others, alloc)?;
    Ok(are_found_by_name(&names, attrs, others))
}

/// Whether two lists have the same attributes, in any order. It takes as many steps as there are attributes, where few of a list have the same name.
pub(crate) fn are_same(alloc: Global, xs: &[Attr], ys: &[Attr]) -> Result<bool, AllocError>
    ensures { IfOk result (λ same. same ≡ same_attributes nat_eq (map attribute_of xs.now) (map attribute_of ys.now)) }
{
    Ok(are_all_in(alloc, xs, ys)? && are_all_in(alloc, ys, xs)?)
}
