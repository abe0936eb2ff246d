//! The entries of a table, and how they are written to its flat form and read from it.

ghost use Rattle.std.specs.Prelude.{◌≡◌, ◌+◌, ◌*◌, ◌≤◌, Some, None, length, drop, ◌++◌, OnOk, if◌then◌else◌, true, IfOk, IfErr, MatchOption};
ghost use Rattle.charref.specs.Vocabulary.{All, is_character, characters_of, entries, is_one_or_two, flat_character, flat_characters, flat_entry, flat_of, IsReadable, IsRefusedFlat, BeginsWith, BeginsWithNone, is_table_entry, IsEntity, IsEntryTo};

use crate::key::{is_key_before, key_at_front};
use crate::reference::Characters;
use names::{Refusal, TableFault};
use std::alloc::{AllocError, Global};

/// An entry: where its key, with its `&`, begins and ends in the table's flat form. After it is what the key stands for.
#[derive(Clone, Copy)]
pub(crate) struct Entity {
    pub(crate) start: u32,
    pub(crate) end: u32,
}

/// Appends the entry of a key: the key, the count of its characters, and these.
pub(crate) fn add_flat(
    flat: &mut Vec<u8>,
    key: &[u8],
    characters: Characters,
) -> Result<(), AllocError>
    ensures { OnOk result (flat.new.items ≡ flat.old.items ++ flat_entry (record { key = key.now; stands_for = characters_of characters })) }
{
    flat.extend_from_slice(key)?;
    match characters {
        Characters::One(only) => {
            flat.push(1)?;
            flat.extend_from_slice(&u32::from(only).to_le_bytes())
        }
        Characters::Two(first, second) => {
            flat.push(2)?;
            flat.extend_from_slice(&u32::from(first).to_le_bytes())?;
            flat.extend_from_slice(&u32::from(second).to_le_bytes())
        }
    }
}

/// The characters below it are all characters but NUL.
const FIRST_SURROGATE: u32 = 0xD800;

/// The character with this number, if it is one other than NUL.
#[inline(always)]
pub(crate) fn character(number: u32) -> Option<char>
    ensures { result ≡ (if is_character number then Some number else None) }
{
    if number.wrapping_sub(1) < FIRST_SURROGATE - 1 {
        return char::from_u32(number);
    }
    rare_character(number)
}

/// The same, of any number: apart, so that the number is read at once.
#[inline(never)]
fn rare_character(number: u32) -> Option<char>
    ensures { result ≡ (if is_character number then Some number else None) }
{
    match char::from_u32(number) {
        Some('\0') => None,
        other => other,
    }
}

/// The character in the first four bytes.
#[inline(always)]
fn character_at_front(bytes: &[u8]) -> Option<char>
    ensures { MatchOption result (BeginsWithNone is_character flat_character bytes.now)
        (λ c. (is_character c ≡ true) × BeginsWith (flat_character c) bytes.now 4) }
{
    match bytes {
        [a, b, c, d, ..] => character(u32::from_le_bytes([*a, *b, *c, *d])),
        _ => None,
    }
}

/// The characters at the front, after their count.
#[inline(always)]
#[tactic(auto, using(crate::proofs::ReadingFlat::no_second))]
pub(crate) fn characters_at_front(bytes: &[u8]) -> Option<Characters>
    ensures { MatchOption result (BeginsWithNone is_one_or_two flat_characters bytes.now)
        (λ it. (is_one_or_two (characters_of it) ≡ true) × BeginsWith (flat_characters (characters_of it)) bytes.now (1 + 4 * length (characters_of it))) }
{
    let [count, characters @ ..] = bytes else {
        return None;
    };
    let first = character_at_front(characters)?;
    match count {
        1 => Some(Characters::One(first)),
        2 => {
            let second = character_at_front(&characters[4..])?;
            Some(Characters::Two(first, second))
        }
        _ => None,
    }
}

/// Where the key of the entry at `start` ends.
#[inline(always)]
fn key_end(text: &[u8], start: usize) -> Option<usize>
    requires { start ≤ length text.now }
    ensures { MatchOption result (BeginsWithNone is_table_entry flat_entry (drop start text.now)) (IsEntryTo text.now start) }
{
    let rest = &text[start..];
    let size = key_at_front(rest)?;
    characters_at_front(&rest[size..])?;
    Some(start + size)
}

/// No entry has fewer bytes than this.
const ENTRY: usize = 7;

/// The entries of a flat form. (For one of 4 GB or more memory is said to be out, since its offsets are numbers of four bytes.)
#[inline(never)]
pub(crate) fn entities_of(alloc: Global, text: &[u8]) -> Result<Vec<Entity>, Refusal>
    ensures ok { IfOk result (λ entities. IsReadable (entries text.now entities.items) × (flat_of (entries text.now entities.items) ≡ text.now)
        × All (IsEntity text.now) entities.items) }
    ensures err { IfErr result (λ e. IsRefusedFlat text.now e) }
{
    let refused = Refusal::BadTable {
        cause: TableFault::Shape,
    };
    if text.is_empty() || text[0] != 1 {
        return Err(refused);
    }
    if text.len() > u32::MAX as usize {
        return Err(Refusal::Memory);
    }
    let mut entities = Vec::with_capacity(alloc, text.len() / ENTRY + 1)?;
    let (mut last, mut last_end) = (0, 0);
    let mut start = 1;
    while start < text.len() {
        let Some(end) = key_end(text, start) else {
            return Err(refused);
        };
        if !is_key_before(&text[last..], last_end - last, &text[start..], end - start) {
            return Err(refused);
        }
        entities.push_reserved(Entity {
            start: start as u32,
            end: end as u32,
        });
        (last, last_end) = (start, end);
        start = end + 1 + 4 * usize::from(text[end]);
    }
    Ok(entities)
}
