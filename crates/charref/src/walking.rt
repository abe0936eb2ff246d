//! The steps of a walk.

ghost use Rattle.std.specs.Prelude.{◌≡◌, ◌+◌, [], ◌∷◌, ◌++◌, Bool, true, false, ◌&&◌, ℕ, List, length, Some, IfSome, IsSome, MatchOption, ◌<◌, ◌≤◌};
ghost use Rattle.charref.specs.Vocabulary.{Placed, all, is_empty, is_alphanumeric, Entities, IsTable, longest, ends_in_semicolon, best_entry, is_search_within, has_read_key, SearchHasRead, key_bytes, is_number, IsHeldReference, IsSign, sign_size, last_of, IsSettled, IsRead, text_reference, unknown_of, number_reference, WalkHasTaken, TakesCharacter, NextIs, LeavesLast, StaysNumber, is_next_within};

use crate::last::{Last, is_kept};
use crate::number::{Base, TOO_GREAT, number_fault, numbered};
use crate::reference::{Characters, Reference};
use crate::reference_state::ReferenceState;
use crate::search::Search;
use crate::table::Table;
use crate::walk::Walk;
use names::ErrorCode;

/// The outcome of a step: the walk continues in a state, or has found the end of a reference.
#[derive(Clone, Copy)]
pub(crate) enum Next {
    Goes(ReferenceState),
    Ended(Reference),
}

impl<'t> Walk<'t> {
    /// A walk that starts right after an `&`, in an attribute value or not.
    pub fn new(table: &'t Table, in_value: bool) -> Walk<'t>
        ensures table { IsTable table.now }
        ensures taken { WalkHasTaken result table.now in_value [] }
    {
        Walk {
            table,
            in_value,
            state: ReferenceState::Name(Search::after_ampersand(table)),
        }
    }

    /// Takes the next character. Returns `None` while the reference is not known yet; once it is, the walk is over, and is left unchanged.
    #[inline(always)]
    pub fn take(&mut self, ch: char) -> Option<Reference>
        ensures ended { IsSome result → self.new ≡ self.old }
        ensures taken { (table : Entities) (in_value : Bool) (text : List Placed) (p : Placed)
            → WalkHasTaken self.old table in_value text → p.ch ≡ ch → TakesCharacter table in_value (text ++ p ∷ []) result self.new }
        ensures number { is_number self.old.state ≡ true → MatchOption result (is_number self.new.state ≡ true) LeavesLast }
    {
        if let ReferenceState::Name(search) = self.state
            && let Some(next) = search.extended(self.table, ch)
            && next.goes_on(self.table)
        {
            self.state = ReferenceState::Name(next);
            return None;
        }
        match self.step(ch) {
            Next::Goes(state) => {
                self.state = state;
                None
            }
            Next::Ended(found) => Some(found),
        }
    }

    /// Whether a number is being read: then no character taken so far will be read again.
    #[inline(always)]
    pub fn is_number(&self) -> bool
        ensures { result ≡ is_number self.now.state }
    {
        matches!(self.state, ReferenceState::Number(_, _))
    }

    #[inline(never)]
    fn step(&self, ch: char) -> Next
        ensures within { is_next_within result (length self.now.table.now) ≡ true }
        ensures next { (table : Entities) (in_value : Bool) (text : List Placed) (p : Placed)
            → WalkHasTaken self.now table in_value text → p.ch ≡ ch → NextIs table in_value (text ++ p ∷ []) result }
        ensures number { is_number self.now.state ≡ true → StaysNumber result }
    {
        match self.state {
            ReferenceState::Name(search) => after_name(self.table, self.in_value, search, ch),
            ReferenceState::Sign(base) => after_sign(base, ch),
            ReferenceState::Number(base, value) => after_digits(base, value, ch),
        }
    }

    /// What is at the `&` if the text ends after the characters taken.
    pub fn end(&self) -> Reference
        ensures read { (table : Entities) (in_value : Bool) (text : List Placed)
            → WalkHasTaken self.now table in_value text → IsRead table in_value text [] result }
        ensures number { is_number self.now.state ≡ true → result.left ≡ 0 }
    {
        match self.state {
            ReferenceState::Name(search) if search.depth <= 1 => as_text(0, None, false),
            ReferenceState::Name(search) => decided(
                self.table,
                self.in_value,
                search.best,
                search.depth - 1,
                Last::Alphanumeric,
            ),
            ReferenceState::Sign(base) => no_digits(base, 0),
            ReferenceState::Number(_, value) => number(value, 0, true),
        }
    }
}

/// An `&` that is text, where `left` characters were read after it.
fn as_text(left: usize, fault: Option<ErrorCode>, is_ambiguous: bool) -> Reference
    ensures { result ≡ text_reference left fault is_ambiguous }
{
    Reference {
        characters: Characters::One('&'),
        left,
        missing_semicolon: false,
        fault,
        is_ambiguous,
    }
}

/// An `&` that is text because no digit follows `#` or `#x`, where so many `others` were read after that.
fn no_digits(base: Base, others: usize) -> Reference
    requires { others ≤ 1 }
    ensures { result ≡ text_reference (sign_size base + others) (Some ErrorCode.AbsenceOfDigitsInNumericCharacterReference) false }
{
    let sign = match base {
        Base::Decimal => 1,
        Base::Hexadecimal => 2,
    };
    as_text(
        sign + others,
        Some(ErrorCode::AbsenceOfDigitsInNumericCharacterReference),
        false,
    )
}

#[inline(always)]
#[tactic(auto, using(crate::proofs::Naming::ends_at))]
pub(crate) fn ends_in_semicolon(key: &[u8]) -> bool
    ensures { result ≡ ends_in_semicolon key.now }
{
    !key.is_empty() && key[key.len() - 1] == b';'
}

/// An `&` that is text because no key matches (`#named-character-reference-state`, `#ambiguous-ampersand-state`).
pub(crate) fn unknown(left: usize, last: Last) -> Reference
    ensures { result ≡ unknown_of left last }
{
    match last {
        Last::Alphanumeric => as_text(left, None, true),
        Last::Semicolon => as_text(left, Some(ErrorCode::UnknownNamedCharacterReference), false),
        Last::Equals | Last::Other => as_text(left, None, false),
    }
}

/// The outcome once no further character can change the longest match, the entry at `best`: `read` characters were read
/// after the `&`, and `last` is the kind of the last one (`#named-character-reference-state`).
pub(crate) fn decided(
    table: &Table,
    in_value: bool,
    best: Option<usize>,
    read: usize,
    last: Last,
) -> Reference
    requires { IfSome best (λ k. k < length table.now) }
    ensures { (front : List Placed) (p : Placed) (after : List Placed) → all is_alphanumeric front ≡ true
        → (is_empty front ≡ true → is_alphanumeric p.ch ≡ true) → read ≡ length (front ++ p ∷ []) → last ≡ last_of p.ch
        → best_entry table.now best ≡ longest table.now (key_bytes (front ++ p ∷ []))
        → IsSettled table.now in_value (front ++ p ∷ []) after → IsRead table.now in_value (front ++ p ∷ []) after result }
{
    let Some(best) = best else {
        return unknown(read, last);
    };
    let key = table.flat.key(best);
    let left = read.saturating_sub(key.len() - 1);
    let semicolon = ends_in_semicolon(key);
    if is_kept(in_value, semicolon, left, last) {
        return as_text(read, None, false);
    }
    Reference {
        characters: table.flat.characters(best),
        left,
        missing_semicolon: !semicolon,
        fault: None,
        is_ambiguous: false,
    }
}

/// A numeric reference: the numeric character reference end state (`#numeric-character-reference-end-state`).
#[inline(always)]
pub(crate) fn number(value: u32, left: usize, missing_semicolon: bool) -> Reference
    ensures { result ≡ number_reference value left missing_semicolon }
{
    Reference {
        characters: Characters::One(numbered(value)),
        left,
        missing_semicolon,
        fault: number_fault(value),
        is_ambiguous: false,
    }
}

/// After `#` (`#numeric-character-reference-state`, `#decimal-character-reference-start-state`), or `#x`
/// (`#hexadecimal-character-reference-start-state`).
#[inline(always)]
fn after_sign(base: Base, ch: char) -> Next
    ensures within { (count : ℕ) → is_next_within result count ≡ true }
    ensures next { (table : Entities) (in_value : Bool) (text : List Placed) (p : Placed) → IsSign base text
        → p.ch ≡ ch → NextIs table in_value (text ++ p ∷ []) result }
{
    match base {
        Base::Decimal => {
            if ch == 'x' || ch == 'X' {
                return Next::Goes(ReferenceState::Sign(Base::Hexadecimal));
            }
        }
        Base::Hexadecimal => {}
    }
    match base.digit(ch) {
        Some(digit) => Next::Goes(ReferenceState::Number(base, digit)),
        None => Next::Ended(no_digits(base, 1)),
    }
}

/// After the digits of a number: the hexadecimal and decimal character reference states (`#hexadecimal-character-reference-state`,
/// `#decimal-character-reference-state`).
#[inline(always)]
#[tactic(auto, using(crate::proofs::Numbers::next_digit))]
fn after_digits(base: Base, value: u32, ch: char) -> Next
    requires { value ≤ TOO_GREAT }
    ensures within { (count : ℕ) → is_next_within result count ≡ true }
    ensures next { (table : Entities) (in_value : Bool) (text : List Placed) (p : Placed)
        → IsHeldReference table in_value (ReferenceState.Number base value) text → p.ch ≡ ch → NextIs table in_value (text ++ p ∷ []) result }
    ensures number { StaysNumber result }
{
    match base.digit(ch) {
        Some(digit) => Next::Goes(ReferenceState::Number(base, base.more(value, digit))),
        None if ch == ';' => Next::Ended(number(value, 0, false)),
        None => Next::Ended(number(value, 1, true)),
    }
}

/// The character reference state (`#character-reference-state`), and after the beginning of a name the named character reference
/// state (`#named-character-reference-state`).
#[inline(always)]
fn after_name(table: &Table, in_value: bool, search: Search, ch: char) -> Next
    requires { is_search_within search (length table.now) ≡ true }
    ensures within { is_next_within result (length table.now) ≡ true }
    ensures next { (text : List Placed) (p : Placed) → SearchHasRead search table.now (key_bytes text)
        → all is_alphanumeric text ≡ true → p.ch ≡ ch → NextIs table.now in_value (text ++ p ∷ []) result }
{
    let last = Last::of(ch);
    if search.depth == 1 && !last.is_alphanumeric() {
        if ch == '#' {
            return Next::Goes(ReferenceState::Sign(Base::Decimal));
        }
        return Next::Ended(as_text(1, None, false));
    }
    let Some(next) = search.extended(table, ch) else {
        return Next::Ended(decided(table, in_value, search.best, search.depth, last));
    };
    if next.goes_on(table) {
        return Next::Goes(ReferenceState::Name(next));
    }
    if in_value && last.is_alphanumeric() && next.has_read_key(table) {
        return Next::Goes(ReferenceState::Name(next));
    }
    Next::Ended(decided(table, in_value, next.best, search.depth, last))
}
