//! Reading a table from JSON text.

ghost use Rattle.std.specs.Prelude.{◌≡◌, ◌++◌, true, Ok, Err, Some, IfOk, IfErr, IfSome, option_map};
ghost use Rattle.charref.specs.Vocabulary.{get, as_str, as_array, TableFault, view, items_view, members_view, IsMemory, Entry, Entities, codepoint, codepoints, fields, entry_of_json, entities_of, table_of_json, IsRefusedWith, characters_of, flat_entry, flat_of, is_one_or_two, is_table_entry, IsReadable};

use crate::entries::{add_flat, character};
use crate::key::is_key;
use crate::reference::Characters;
use crate::table::Table;
use names::{Refusal, TableFault};
use serde_json::{Error, Map, Value};
use std::alloc::Global;

/// The character with this number, if it is written in digits alone and is a character other than NUL.
fn codepoint(value: &Value) -> Option<char>
    ensures { result ≡ codepoint (view value.now) }
{
    character(u32::try_from(value.as_u64()?).ok()?)
}

/// The characters of a list of one or two numbers.
#[tactic(auto, using(crate::proofs::KeyTexts::codepoints_none))]
fn codepoints(list: &[Value]) -> Option<Characters>
    ensures value { option_map characters_of result ≡ codepoints (items_view list.now) }
    ensures few { IfSome result (λ it. is_one_or_two (characters_of it) ≡ true) }
{
    match list {
        [only] => Some(Characters::One(codepoint(only)?)),
        [first, second] => Some(Characters::Two(codepoint(first)?, codepoint(second)?)),
        _ => None,
    }
}

fn fields(value: &Value) -> Option<(&Vec<Value>, &str)>
    ensures { option_map (λ pair. (items_view pair.0.now.items, pair.1.now)) result ≡ fields (view value.now) }
{
    let list = value.get("codepoints")?.as_array()?;
    let text = value.get("characters")?.as_str()?;
    Some((list, text))
}

fn fault(cause: TableFault) -> Refusal
    ensures { result ≡ Refusal.BadTable cause }
{
    Refusal::BadTable { cause }
}

/// The refusal of a text that `serde_json` rejects.
fn json_fault(error: Error) -> Refusal
    ensures memory { IsMemory error → result ≡ Refusal.Memory }
    ensures json { ¬ IsMemory error → result ≡ Refusal.BadTable TableFault.Json }
{
    if error.is_memory() {
        Refusal::Memory
    } else {
        fault(TableFault::Json)
    }
}

/// Appends the entry of a key and its value to a flat form. Its text is compared with what is written of its characters into `room`.
fn add_entry(flat: &mut Vec<u8>, room: &mut String, key: &str, value: &Value) -> Result<(), Refusal>
    ensures ok { IfOk result (λ _. (e : Entry) × (entry_of_json key.now (view value.now) ≡ Ok e) × (e.key ≡ key.now) × (is_table_entry e ≡ true)
        × (flat.new.items ≡ flat.old.items ++ flat_entry e)) }
    ensures err { IfErr result (λ e. IsRefusedWith (entry_of_json key.now (view value.now)) e) }
{
    if !is_key(key.as_bytes()) {
        return Err(fault(TableFault::Key));
    }
    let Some((list, text)) = fields(value) else {
        return Err(fault(TableFault::Shape));
    };
    let Some(characters) = codepoints(list) else {
        return Err(fault(TableFault::Codepoints));
    };
    room.clear();
    characters.push_to(room)?;
    if text != room.as_str() {
        return Err(fault(TableFault::Characters));
    }
    Ok(add_flat(flat, key.as_bytes(), characters)?)
}

/// The flat form of an object's members.
fn flat_of(alloc: Global, members: &Map<String, Value>) -> Result<Vec<u8>, Refusal>
    ensures ok { IfOk result (λ flat. (table : Entities) × (entities_of (members_view members.now.entries) ≡ Ok table) × IsReadable table
        × (flat_of table ≡ flat.items)) }
    ensures err { IfErr result (λ e. IsRefusedWith (entities_of (members_view members.now.entries)) e) }
{
    let mut flat = Vec::from_slice(alloc, &[1])?;
    let mut room = String::new(alloc);
    for (key, value) in members.iter() {
        add_entry(&mut flat, &mut room, key.as_str(), value)?;
    }
    Ok(flat)
}

impl Table {
    /// Reads a table from JSON text: an object that maps each key to an object with `codepoints`, a list of one or two
    /// numbers, and `characters`, their text. Of equal keys, and of equal fields of an entry, the last one counts; other
    /// fields are ignored. The error is `Memory`, or `BadTable` with the first cause found: in the text as JSON, in the
    /// whole, and then entry by entry in the order of the keys' bytes.
    pub fn read(alloc: Global, text: &str) -> Result<Table, Refusal>
        ensures ok { IfOk result (λ table. table_of_json text.now ≡ Ok table) }
        ensures err { IfErr result (λ e. IsRefusedWith (table_of_json text.now) e) }
    {
        let value = Value::from_str(alloc, text).map_err(json_fault)?;
        let Some(members) = value.as_object() else {
            return Err(fault(TableFault::Shape));
        };
        Table::of_flat(alloc, flat_of(alloc, members)?, true)
    }
}
