//! Laws of the tree: its edits, and what is asked of its nodes, are the same under any names that the numbers stand for.

ghost use Rattle.std.specs.Prelude.{ℕ, List};
ghost use Rattle.hnodes.specs.Mapped.{EditsKnowNoNames, QuestionsKnowNoNames};

/// Each edit is the same under any names that the numbers stand for.
#[tactic(auto, using(crate::proofs::Spellings::edits))]
pub fn edits_know_no_names()
    ensures { (texts : ℕ → List ℕ) → EditsKnowNoNames texts }
{}

/// What is asked of a node is the same under any names that the numbers stand for.
#[tactic(auto, using(crate::proofs::Spellings::questions))]
pub fn questions_know_no_names()
    ensures { (texts : ℕ → List ℕ) → QuestionsKnowNoNames texts }
{}
