//! A law: a table in its flat form is the same table.

ghost use Rattle.std.specs.Prelude.{◌≡◌, ◌↔◌, Ok};
ghost use Rattle.html_c.specs.Vocabulary.{flat_of, IsReadable, Entities, ParseOptions, AreSameButTables, Tells, ReadsTableBytes, Told};

use charref::one_flat_table;

/// A law: what is given says the same options with the flat form of a table in the place of other bytes of that table, so every answer is the same.
pub fn a_flat_form_says_the_same()
    ensures { (given flat : Told) (table : Entities) (opts : ParseOptions) → ReadsTableBytes given.entities.now (Ok table) → IsReadable table
        → flat.entities.now ≡ flat_of table → AreSameButTables given flat → Tells given opts ↔ Tells flat opts }
{
    one_flat_table();
}
