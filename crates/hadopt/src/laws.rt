//! Laws of the operations on a site: names may be numbers or texts, and the adoption agency makes few elements.

ghost use Rattle.std.specs.Prelude.{◌≡◌, ◌≤◌, ◌+◌, ℕ, List};
ghost use Rattle.hadopt.specs.Vocabulary.{adopted, numbers, Goes, Texts, AreNames, spelling, texts, SiteOf, Agree, OperationsKnowNoNames};

/// What the operations do with numbers of names they do with the texts that the numbers stand for.
pub fn operations_know_no_names()
    ensures { (spell : ℕ → List ℕ) → Agree numbers texts spell → OperationsKnowNoNames numbers texts spell }
{}

/// The numbers of each table of names agree with texts: those of the table, and others beyond its end.
pub fn numbers_agree_with_texts()
    ensures { (names : Texts) → AreNames names → Agree numbers texts (spelling names) }
{}

/// One run of the adoption agency makes at most 32 elements.
pub fn adoption_makes_few_elements()
    ensures { (at : ℕ) (name : List ℕ) (before after : SiteOf (List ℕ)) → adopted texts at name before ≡ Goes after
        → after.nodes.made ≤ before.nodes.made + 32 }
{}
