//! The law of tables of names: the texts of each extend to distinct texts for all numbers.

ghost use Rattle.names.specs.Names.{Texts, AreNames};
ghost use Rattle.names.specs.Spelling.{IsSpelled, spelling};

/// A table's texts extend to distinct texts for all numbers. So what holds for every assignment of distinct texts to numbers holds for each table.
pub fn each_table_spells()
    ensures { (names : Texts) → AreNames names → IsSpelled names (spelling names) }
{}
