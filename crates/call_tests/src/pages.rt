//! Elements by the texts of their names, and pages as text.

use hwrite::{Counted, Escaping, Keys, Options, Parsed, Parser, Quirks, Refusal, Table};
use std::alloc::Global;
use std::test::Fail;

/// A fragment in an element of this name, with the places of its nodes.
fn page(alloc: Global, name: &str, input: &[u8]) -> Result<Parsed, Refusal> {
    let table = Table::core(alloc)?;
    let quirks = Quirks::read(alloc, "")?;
    let mut options = Options::new(&table, &quirks, Keys::for_tests());
    options.places = true;
    let mut parser = Parser::fragment(alloc, name, &options)?;
    parser.feed(input)?;
    parser.finish()
}

/// Whether the first element of a name that is not known is found by it, and its attributes by theirs, and comes from its own tag.
fn is_found(page: &Parsed) -> bool {
    for node in page.tree.descendants(page.root) {
        if page.is_element(node, "my-list") {
            let id = page.attribute(node, "id") == Some("a");
            let own = page
                .origin(node)
                .is_some_and(|it| it.at == 3 && it.in_source);
            return id && own && page.attribute(node, "class").is_none();
        }
    }
    false
}

/// Whether a page is written raw as in a style, and escaped as in its root.
fn is_written(alloc: Global, page: &Parsed) -> Result<bool, Refusal> {
    let mut target = Counted::new(Vec::new(alloc));
    page.serialize_in(alloc, "style", Escaping::One, &mut target)?;
    let raw = target.into_inner();
    let escaped = page.serialize_to_vec(alloc, Escaping::One)?;
    Ok(raw.as_slice() == b"a<b".as_slice() && escaped.as_slice() == b"a&lt;b".as_slice())
}

#[test]
fn of_pages(rt: HostRuntime) -> Result<(), Fail> {
    assert!(rt; is_found(&page(rt.alloc(), "div", b"<p><my-list id=a>")?));
    assert!(rt; is_written(rt.alloc(), &page(rt.alloc(), "style", b"a<b")?)?);
    Ok(())
}
