//! The laws of the stack of open elements (HTML Standard, `#the-stack-of-open-elements`) and of the list of active formatting elements
//! (`#the-list-of-active-formatting-elements`): edits and questions are the same over numbers of names as over their texts.

ghost use Rattle.std.specs.Prelude.{ℕ, List, nat_eq, bytes_eq};
ghost use Rattle.hopen.specs.FormattingMapped.{FormattingKnowsNoNames};
ghost use Rattle.hopen.specs.Mapped.{StackKnowsNoNames};
ghost use Rattle.names.specs.Spelling.{SpellsNumbers};
ghost use Rattle.names.specs.Tags.{tag_of, tag_named};

/// What is done with the open nodes, and asked of them, is the same over the numbers of names as over their texts.
pub fn stack_knows_no_names()
    ensures { (texts : ℕ → List ℕ) → SpellsNumbers texts → StackKnowsNoNames tag_of tag_named nat_eq bytes_eq texts }
{}

/// What is done with the formatting list, and asked of it, is the same over the numbers of names as over their texts.
pub fn formatting_knows_no_names()
    ensures { (texts : ℕ → List ℕ) → SpellsNumbers texts → FormattingKnowsNoNames nat_eq bytes_eq texts }
{}
