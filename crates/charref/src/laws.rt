//! Laws: each text that begins with `&` has exactly one reference at its front, and a flat form is of one table.

ghost use Rattle.std.specs.Prelude.{◌≡◌, ◌∷◌, ◌++◌, Bool, false, List};
ghost use Rattle.charref.specs.Vocabulary.{Placed, Entities, IsTable, Piece, IsReference, IsOpenReference, HasReference, WalkOf, WalkHasTaken, flat_of, IsReadable};

/// A law: at each `&` is a reference, or an `&` that is text.
#[tactic(auto, using(crate::proofs::SomeReference::some_of))]
pub fn some_reference()
    ensures { (table : Entities) (in_value : Bool) (amp : Placed) (text : List Placed) → IsTable table → amp.ch ≡ 38
        → HasReference table in_value (amp ∷ text) }
{}

/// A law: a text has at most one of them at its front, and so one rest after it.
pub fn one_reference()
    ensures { (table : Entities) (in_value : Bool) (piece other : Piece) (rest after : List Placed)
        → IsReference table in_value rest piece → IsReference table in_value after other
        → piece.text ++ rest ≡ other.text ++ after → (piece ≡ other) × (rest ≡ after) }
{}

/// A law: outside an attribute value, a walk continues only while what it has taken is the beginning of a longer reference.
/// So text that is held back for a walk may still become a reference.
#[tactic(auto, using(crate::proofs::Opening::open_taken))]
pub fn goes_on_in_a_reference()
    ensures { (walk : WalkOf) (table : Entities) (text : List Placed) (amp : Placed) → IsTable table
        → WalkHasTaken walk table false text → amp.ch ≡ 38 → IsOpenReference table amp text }
{}

/// A law: no two tables have the same flat form.
#[tactic(auto, using(crate::proofs::Forms::one_table))]
pub fn one_flat_table()
    ensures { (table other : Entities) → IsReadable table → IsReadable other → flat_of table ≡ flat_of other → table ≡ other }
{}
