//! The pieces of a value: characters and references (HTML Standard, `#attribute-value-(double-quoted)-state` to
//! `#attribute-value-(unquoted)-state` and `#character-reference-state` to `#numeric-character-reference-end-state`).

ghost use Rattle.std.specs.Prelude.{◌≡◌, ◌-◌, true, OnOk};
ghost use Rattle.htag.specs.Vocabulary.{NoValue, TakesInValue, EndsValue, TellsReference, GivesBack};

use crate::push::{Errors, is_fault, keep_if, keep_null, kept, push_all};
use charref::{Reference, Table, Walk};
use names::{ErrorCode, Placed};
use std::alloc::{AllocError, Global};

/// What of a value is read but not in its text yet.
#[derive(Clone, Copy)]
pub(crate) enum Pending<'t> {
    Nothing,
    /// An `&` and what this walk was handed.
    Reference(Walk<'t>),
    /// Nothing but an error, at an `&` that no key begins: it is reported if a `;` follows the alphanumerics (`#ambiguous-ampersand-state`).
    AmbiguousAmpersand,
}

/// Reads the value of an attribute, a character at a time, with the character references in it: the attribute value states
/// (`#attribute-value-(double-quoted)-state` and the two after it), and those of a character reference in them.
#[derive(Drop)]
pub(crate) struct ValueWalk<'t> {
    /// What was read of the value, but for what `reading` says.
    pub text: String,
    pub reading: Pending<'t>,
    /// The place of the `&` that is being read.
    pub at: u64,
    /// The characters after it, but for those of a number.
    pub held: Vec<char>,
}

impl<'t> ValueWalk<'t> {
    pub fn new(alloc: Global) -> ValueWalk<'t>
        ensures { NoValue result }
    {
        ValueWalk {
            text: String::new(alloc),
            reading: Pending::Nothing,
            at: 0,
            held: Vec::new(alloc),
        }
    }

    pub fn begin(&mut self)
        ensures { NoValue self.new }
    {
        self.text.clear();
        self.reading = Pending::Nothing;
    }

    /// Takes the next character of the value, which does not end it. (After an `&` that no key begins: the ambiguous ampersand state,
    /// `#ambiguous-ampersand-state`.)
    pub fn take(
        &mut self,
        table: &'t Table,
        quoted: bool,
        next: Placed,
        errors: &mut Errors,
    ) -> Result<(), AllocError>
        ensures { OnOk result (TakesInValue table.now quoted self.old next errors.old.items self.new errors.new.items) }
    {
        match self.reading {
            Pending::Nothing => self.take_next(table, quoted, next, errors),
            Pending::Reference(walk) => self.in_reference(walk, table, quoted, next, errors),
            Pending::AmbiguousAmpersand => {
                if next.ch.is_ascii_alphanumeric() {
                    self.text.push(next.ch)?;
                    return Ok(());
                }
                let code = ErrorCode::UnknownNamedCharacterReference;
                keep_if(next.ch == ';', code, self.at, errors)?;
                self.reading = Pending::Nothing;
                self.take_next(table, quoted, next, errors)
            }
        }
    }

    pub fn end(&mut self, errors: &mut Errors) -> Result<(), AllocError>
        ensures { OnOk result (EndsValue self.old errors.old.items self.new errors.new.items) }
    {
        match self.reading {
            Pending::Nothing | Pending::AmbiguousAmpersand => Ok(()),
            Pending::Reference(walk) => {
                let found = walk.end();
                self.tell(found, errors)?;
                self.give_back(found.left)
            }
        }
    }

    fn take_next(
        &mut self,
        table: &'t Table,
        quoted: bool,
        next: Placed,
        errors: &mut Errors,
    ) -> Result<(), AllocError>
        requires { self.old.reading ≡ Pending.Nothing }
        ensures { OnOk result (TakesInValue table.now quoted self.old next errors.old.items self.new errors.new.items) }
    {
        if next.ch != '&' {
            let code = ErrorCode::UnexpectedCharacterInUnquotedAttributeValue;
            keep_if(is_fault(quoted, next.ch), code, next.at, errors)?;
            keep_null(next, errors)?;
            self.text.push(kept(next.ch))?;
            return Ok(());
        }
        self.reading = Pending::Reference(Walk::new(table, true));
        self.at = next.at;
        self.held.clear();
        Ok(())
    }

    /// The character reference state (`#character-reference-state`) and those after it: after an `&` that may be a reference's.
    #[inline(never)]
    fn in_reference(
        &mut self,
        walk: Walk<'t>,
        table: &'t Table,
        quoted: bool,
        next: Placed,
        errors: &mut Errors,
    ) -> Result<(), AllocError>
        requires { self.old.reading ≡ Pending.Reference walk }
        ensures { OnOk result (TakesInValue table.now quoted self.old next errors.old.items self.new errors.new.items) }
    {
        let mut walk = walk;
        let found = match walk.take(next.ch) {
            None if walk.is_number() => {
                self.held.clear();
                self.reading = Pending::Reference(walk);
                return Ok(());
            }
            None => {
                self.held.push(next.ch)?;
                self.reading = Pending::Reference(walk);
                return Ok(());
            }
            Some(found) => found,
        };
        self.tell(found, errors)?;
        if found.is_ambiguous {
            self.reading = Pending::AmbiguousAmpersand;
            push_all(&mut self.text, &self.held)?;
            self.text.push(next.ch)?;
            return Ok(());
        }
        self.reading = Pending::Nothing;
        if found.left == 0 {
            return Ok(());
        }
        self.give_back(found.left - 1)?;
        self.take_next(table, quoted, next, errors)
    }

    fn tell(&mut self, found: Reference, errors: &mut Errors) -> Result<(), AllocError>
        ensures { OnOk result (TellsReference found self.old errors.old.items self.new errors.new.items) }
    {
        let code = ErrorCode::MissingSemicolonAfterCharacterReference;
        keep_if(found.missing_semicolon, code, self.at, errors)?;
        if let Some(code) = found.fault {
            keep_if(true, code, self.at, errors)?;
        }
        found.characters.push_to(&mut self.text)
    }

    fn give_back(&mut self, count: usize) -> Result<(), AllocError>
        ensures { OnOk result (GivesBack count self.old self.new) }
    {
        let from = self.held.len().saturating_sub(count);
        push_all(&mut self.text, &self.held[from..])?;
        Ok(())
    }
}
