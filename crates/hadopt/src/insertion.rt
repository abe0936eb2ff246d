//! What is inserted (HTML Standard, `#creating-and-inserting-nodes`).

ghost use Rattle.std.specs.Prelude.{◌≡◌, ◌<◌, ◌∷◌, false, map, nat_eq, IfOk, string_bytes};
ghost use Rattle.std.specs.Str.{chars};
ghost use Rattle.hadopt.specs.Vocabulary.{IsPlace, graft, place_node, IsOutside, attribute_of, LastIn, open_of, Gives, IsSound, PlaceStands, numbers, Goes, and_then, stack, trees, with_trees, comment, doctype, element, placed, Creates};
ghost use Rattle.hadopt.specs.Vocabulary.{number_of, added, with_open, inserted, put, put_each, listed, with_missing, OpenStands};

use crate::site::Site;
use hnodes::{Attributes, DocumentType, NodeId, Place};
use hopen::Open;
use names::{Attr, NameId, Refusal, Tag};

impl Site {
    /// Inserts an HTML element (`#insert-an-html-element`): puts a new one at a place and makes it the current node. `at` is the byte
    /// offset of the token, here as in all calls. The attributes leave their list.
    #[inline(always)]
    pub fn insert_element(
        &mut self,
        name: NameId,
        attrs: &mut Vec<Attr>,
        place: Place,
        at: u64,
    ) -> Result<NodeId, Refusal>
        requires { IsPlace place self.old.nodes }
        ensures done { Gives result self.new (inserted at name (map attribute_of attrs.old.items) place self.old) }
        ensures number { IfOk result (λ n. n ≡ self.old.nodes.made) }
        ensures kept { IsSound numbers self.old → PlaceStands place (trees self.old) → IfOk result (λ _. IsSound numbers self.new) }
    {
        let node = self.tree.create_element_from(name, attrs, at)?;
        self.enter(Open { node, name }, place, at)?;
        Ok(node)
    }

    /// Creates an element for a token (`#create-an-element-for-the-token`), which shares its attributes and has no parent yet.
    #[inline(always)]
    pub(crate) fn create_sharing(
        &mut self,
        name: NameId,
        attrs: Attributes,
        at: u64,
    ) -> Result<NodeId, Refusal>
        ensures { Creates (element name attrs) at self.old self.new result }
    {
        self.tree.create_sharing(name, attrs, at)
    }

    #[inline(always)]
    pub(crate) fn enter(&mut self, opened: Open, place: Place, at: u64) -> Result<(), Refusal>
        requires begun { 0 < opened.node }
        requires node_in { opened.node < self.old.nodes.made }
        requires place { IsPlace place self.old.nodes }
        requires not_inside { IsOutside (place_node place) opened.node (trees self.old) }
        ensures { Gives result self.new (with_open at (open_of opened) (with_trees (graft opened.node place (trees self.old)) self.old)) }
    {
        self.graft(opened.node, place);
        self.push(opened, at)
    }

    /// Inserts a formatting element, which also gets an entry in the list of active formatting elements
    /// (`#push-onto-the-list-of-active-formatting-elements`).
    pub fn insert_formatting(
        &mut self,
        name: NameId,
        attrs: Attributes,
        place: Place,
        at: u64,
    ) -> Result<NodeId, Refusal>
        requires { IsPlace place self.old.nodes }
        ensures done { Gives result self.new (and_then (inserted at name attrs place self.old) (λ t. Goes (listed numbers name attrs t))) }
        ensures number { IfOk result (λ n. n ≡ self.old.nodes.made) }
        ensures kept { IsSound numbers self.old → PlaceStands place (trees self.old) → nat_eq name (number_of Tag.Table) ≡ false
            → IfOk result (λ _. IsSound numbers self.new) }
    {
        let new = self.tree.create_copying(name, &attrs, at)?;
        self.enter(Open { node: new, name }, place, at)?;
        self.list.push(new, name, attrs)?;
        Ok(new)
    }

    /// Inserts a comment at a place (`#insert-a-comment`).
    pub fn insert_comment(&mut self, text: String, place: Place, at: u64) -> Result<NodeId, Refusal>
        requires { IsPlace place self.old.nodes }
        ensures done { Gives result self.new (added at (comment (string_bytes text)) place self.old) }
        ensures kept { IsSound numbers self.old → PlaceStands place (trees self.old) → IfOk result (λ _. IsSound numbers self.new) }
    {
        let node = self.tree.create_comment(text, at)?;
        self.tree.insert(node, place);
        Ok(node)
    }

    /// Appends a doctype to the document.
    pub fn insert_doctype(&mut self, texts: DocumentType, at: u64) -> Result<NodeId, Refusal>
        ensures done { Gives result self.new (added at (doctype (string_bytes texts.name) (string_bytes texts.public_id) (string_bytes texts.system_id))
            (LastIn 0) self.old) }
        ensures kept { IsSound numbers self.old → IfOk result (λ _. IsSound numbers self.new) }
    {
        let document = self.tree.document();
        let node = self.tree.create_doctype(texts, at)?;
        self.tree.append(node, document);
        Ok(node)
    }

    /// Inserts a character at a place (`#insert-a-character`): at the end of the text right before the place, or in a new text there.
    #[inline(always)]
    pub fn put(&mut self, c: char, place: Place, at: u64) -> Result<(), Refusal>
        requires { IsPlace place self.old.nodes }
        ensures done { Gives result self.new (put at c place self.old) }
        ensures kept { IsSound numbers self.old → PlaceStands place (trees self.old) → IfOk result (λ _. IsSound numbers self.new) }
    {
        self.tree.put_char(c, place, at)
    }

    /// Inserts a run of characters at a place, one by one; `at` is the byte offset of the first. Adjacent texts join.
    #[inline(always)]
    pub fn put_text(&mut self, text: &str, place: Place, at: u64) -> Result<(), Refusal>
        requires { IsPlace place self.old.nodes }
        ensures done { Gives result self.new (put_each (placed at (chars text.now)) place self.old) }
        ensures kept { IsSound numbers self.old → PlaceStands place (trees self.old) → IfOk result (λ _. IsSound numbers self.new) }
    {
        prove!(self.tree.are_nodes());
        self.tree.put_text(text, place, at)
    }

    /// Adds to an element those of the attributes whose names it lacks.
    pub fn add_missing(&mut self, node: NodeId, attrs: Vec<Attr>) -> Result<(), Refusal>
        requires { node < self.old.nodes.made }
        ensures done { Gives result self.new (Goes (with_trees (with_missing numbers node (map attribute_of attrs.items) (trees self.old)) self.old)) }
        ensures kept { IsSound numbers self.old → IfOk result (λ _. IsSound numbers self.new) }
    {
        for attr in attrs {
            self.tree.add_missing_attr(node, attr)?;
        }
        Ok(())
    }

    /// Makes an existing node the current one.
    #[inline(always)]
    pub fn push(&mut self, opened: Open, at: u64) -> Result<(), Refusal>
        requires begun { 0 < opened.node }
        requires made { opened.node < self.old.nodes.made }
        ensures done { Gives result self.new (with_open at (open_of opened) self.old) }
        ensures kept { IsSound numbers self.old → OpenStands (trees self.old) (open_of opened ∷ stack self.old) → IfOk result (λ _. IsSound numbers self.new) }
    {
        self.stack.push(opened, at)
    }
}
