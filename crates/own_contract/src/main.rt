//! An example of contracts of one's own: a page that is built a node at a time, and proved to have no script.
#![tactic(auto)]

mod page;

use crate::page::Page;
use hserialize::{Escaping, is_plain, serialize_in_to_vec};
use names::{Keys, Names, Refusal, Tag};
use std::alloc::Global;

fn main(rt: HostRuntime) -> anyhow::Result<()> {
    let names = Names::new(rt.alloc(), Keys::random(&rt)?);
    let page = birds(rt.alloc())?;
    let (tree, top) = (page.tree(), page.tree().document());
    let plain = is_plain(tree, &names, top, "body");
    println!(rt; "plain: {plain}\nelements: {}", page.elements())?;
    let html = serialize_in_to_vec(rt.alloc(), tree, &names, top, "body", Escaping::One)?;
    Ok(println!(rt; "{}", String::from_utf8(html)?)?)
}

/// A heading, and a list of two birds. The script is not put there.
fn birds(alloc: Global) -> Result<Page, Refusal> {
    let mut page = Page::new(alloc)?;
    let top = page.tree().document();
    if let Some(heading) = page.put(alloc, Tag::H1, top)? {
        page.put_text("Rails & crakes", heading)?;
    }
    if let Some(list) = page.put(alloc, Tag::Ul, top)? {
        for name in ["Water rail", "Spotted crake"] {
            if let Some(item) = page.put(alloc, Tag::Li, list)? {
                page.put_text(name, item)?;
            }
        }
    }
    if let Some(script) = page.put(alloc, Tag::Script, top)? {
        page.put_text("count()", script)?;
    }
    Ok(page)
}
