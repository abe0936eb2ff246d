//! A character of a tag, and of an attribute in it.

ghost use Rattle.std.specs.Prelude.{◌≡◌, ◌∷◌, ◌++◌, List, [], slice_get, true, Some, IfErr, OnOk, MatchResult, if◌then◌else◌};
ghost use Rattle.htag.specs.Vocabulary.{AreNames, Attribute, EndsAs, Character, Texts, Grows, Entities, EndsAttribute, AddsToName, IsInTag, is_in_attribute, StepsInAttribute, TakesInTag, IsCutTag, Memory};

use crate::push::{Errors, ends_name, keep_if, keep_null, kept};
use crate::tag_state::TagState;
use crate::walk::TagWalk;
use charref::Table;
use names::{Attr, ErrorCode, Names, ParseError, Placed, Refusal};
use std::alloc::AllocError;

/// The most names that numbers of 32 bits tell apart.
const MAX_NUMBER: usize = 4_294_967_295;

impl<'t> TagWalk<'t> {
    /// Takes the next character; returns whether the tag has ended with it. Each call for one tag is handed the same tables and
    /// the errors that the calls before it left.
    #[inline(always)]
    pub fn take_char(
        &mut self,
        table: &'t Table,
        names: &mut Names,
        ch: char,
        at: u64,
        errors: &mut Vec<ParseError>,
    ) -> Result<bool, Refusal>
        ensures takes { (body : List Character) → IsInTag table.now names.old self.old body (record { ch = ch; at = at } ∷ []) errors.old.items
            → TakesInTag table.now names.new (body ++ record { ch = ch; at = at } ∷ []) result self.new errors.new.items }
        ensures grows { Grows names.old names.new }
        ensures kind { OnOk result (self.new.kind ≡ self.old.kind) }
    {
        let next = Placed { ch, at };
        match self.phase {
            TagState::TagName => self.in_tag_name(next, errors),
            TagState::BeforeAttributeName => self.before_attribute_name(next, errors),
            TagState::SelfClosingStartTag => self.self_closing_start_tag(next, errors),
            _ => {
                if !self.in_attribute(table, next, errors)? {
                    return Ok(false);
                }
                self.end_attribute(names, errors)?;
                self.before_attribute_name(next, errors)
            }
        }
    }

    /// A state in an attribute. Returns whether the attribute has ended before the character, which is taken otherwise.
    #[inline(always)]
    fn in_attribute(
        &mut self,
        table: &'t Table,
        next: Placed,
        errors: &mut Errors,
    ) -> Result<bool, AllocError>
        requires { is_in_attribute self.old.phase ≡ true }
        ensures takes { (names : Texts) → StepsInAttribute table.now names self.old next errors.old.items result self.new errors.new.items }
        ensures kind { OnOk result (self.new.kind ≡ self.old.kind) }
    {
        match self.phase {
            TagState::TagName | TagState::BeforeAttributeName | TagState::SelfClosingStartTag => {
                Ok(false)
            }
            TagState::AttributeName => self.in_attribute_name(false, next, errors),
            TagState::AfterAttributeName => self.in_attribute_name(true, next, errors),
            TagState::BeforeAttributeValue => self.before_attribute_value(table, next, errors),
            TagState::AttributeValueQuoted(mark) => self.in_attribute_value_quoted(
                table, mark, next, errors,
            ),
            TagState::AttributeValueUnquoted => self.in_attribute_value_unquoted(
                table, next, errors,
            ),
            TagState::AfterAttributeValueQuoted => self.after_attribute_value_quoted(next, errors),
        }
    }

    /// The attribute name state (`#attribute-name-state`), and, where white space came after the name, the after attribute name state
    /// (`#after-attribute-name-state`). Returns whether the name has ended before the character, which is taken otherwise.
    #[inline(always)]
    fn in_attribute_name(
        &mut self,
        spaced: bool,
        next: Placed,
        errors: &mut Errors,
    ) -> Result<bool, AllocError>
        requires { self.old.phase ≡ (if spaced then TagState.AfterAttributeName else TagState.AttributeName) }
        ensures takes { (table : Entities) (names : Texts) → StepsInAttribute table names self.old next errors.old.items result self.new errors.new.items }
        ensures kind { OnOk result (self.new.kind ≡ self.old.kind) }
    {
        if next.ch.is_ascii_whitespace() {
            self.phase = TagState::AfterAttributeName;
            return Ok(false);
        }
        if next.ch == '=' {
            self.phase = TagState::BeforeAttributeValue;
            return Ok(false);
        }
        if spaced || next.ch == '/' || next.ch == '>' {
            return Ok(true);
        }
        self.push_name(next, errors)?;
        Ok(false)
    }

    #[inline(always)]
    pub(crate) fn push_name(&mut self, next: Placed, errors: &mut Errors) -> Result<(), AllocError>
        ensures { OnOk result (AddsToName self.old next errors.old.items self.new errors.new.items) }
    {
        let odd = next.ch == '"' || next.ch == '\'' || next.ch == '<';
        let code = ErrorCode::UnexpectedCharacterInAttributeName;
        keep_if(odd, code, next.at, errors)?;
        keep_null(next, errors)?;
        self.attribute.push(kept(next.ch).to_ascii_lowercase())
    }

    /// The before attribute value state (`#before-attribute-value-state`). Returns whether the attribute has ended before the character.
    #[inline(always)]
    fn before_attribute_value(
        &mut self,
        table: &'t Table,
        next: Placed,
        errors: &mut Errors,
    ) -> Result<bool, AllocError>
        requires { self.old.phase ≡ TagState.BeforeAttributeValue }
        ensures takes { (names : Texts) → StepsInAttribute table.now names self.old next errors.old.items result self.new errors.new.items }
        ensures kind { OnOk result (self.new.kind ≡ self.old.kind) }
    {
        if next.ch.is_ascii_whitespace() {
            return Ok(false);
        }
        if next.ch == '"' || next.ch == '\'' {
            self.phase = TagState::AttributeValueQuoted(next.ch);
            return Ok(false);
        }
        if next.ch == '>' {
            keep_if(true, ErrorCode::MissingAttributeValue, next.at, errors)?;
            return Ok(true);
        }
        self.phase = TagState::AttributeValueUnquoted;
        self.value.take(table, false, next, errors)?;
        Ok(false)
    }

    /// The attribute value (double-quoted) and attribute value (single-quoted) states (`#attribute-value-(double-quoted)-state`,
    /// `#attribute-value-(single-quoted)-state`). Returns `false`: the attribute does not end before its second quote.
    #[inline(always)]
    fn in_attribute_value_quoted(
        &mut self,
        table: &'t Table,
        mark: char,
        next: Placed,
        errors: &mut Errors,
    ) -> Result<bool, AllocError>
        requires { self.old.phase ≡ TagState.AttributeValueQuoted mark }
        ensures takes { (names : Texts) → StepsInAttribute table.now names self.old next errors.old.items result self.new errors.new.items }
        ensures kind { OnOk result (self.new.kind ≡ self.old.kind) }
    {
        if next.ch == mark {
            self.value.end(errors)?;
            self.phase = TagState::AfterAttributeValueQuoted;
            return Ok(false);
        }
        self.value.take(table, true, next, errors)?;
        Ok(false)
    }

    /// The attribute value (unquoted) state (`#attribute-value-(unquoted)-state`). Returns whether the attribute has ended before the character.
    fn in_attribute_value_unquoted(
        &mut self,
        table: &'t Table,
        next: Placed,
        errors: &mut Errors,
    ) -> Result<bool, AllocError>
        requires { self.old.phase ≡ TagState.AttributeValueUnquoted }
        ensures takes { (names : Texts) → StepsInAttribute table.now names self.old next errors.old.items result self.new errors.new.items }
        ensures kind { OnOk result (self.new.kind ≡ self.old.kind) }
    {
        if next.ch == '>' || next.ch.is_ascii_whitespace() {
            self.value.end(errors)?;
            return Ok(true);
        }
        self.value.take(table, false, next, errors)?;
        Ok(false)
    }

    /// The after attribute value (quoted) state (`#after-attribute-value-(quoted)-state`). Returns `true`: the attribute has ended before the character.
    #[inline(always)]
    fn after_attribute_value_quoted(
        &mut self,
        next: Placed,
        errors: &mut Errors,
    ) -> Result<bool, AllocError>
        requires { self.old.phase ≡ TagState.AfterAttributeValueQuoted }
        ensures takes { (table : Entities) (names : Texts) → StepsInAttribute table names self.old next errors.old.items result self.new errors.new.items }
        ensures kind { OnOk result (self.new.kind ≡ self.old.kind) }
    {
        let code = ErrorCode::MissingWhitespaceBetweenAttributes;
        keep_if(!ends_name(next.ch), code, next.at, errors)?;
        Ok(true)
    }

    /// The input ends inside the tag: finishes the attribute that is being read. There is no tag then, but its errors stay.
    pub fn end(&mut self, names: &mut Names, errors: &mut Vec<ParseError>) -> Result<(), Refusal>
        ensures cut { (table : Entities) (body : List Character) → IsInTag table names.old self.old body [] errors.old.items
            → MatchResult result (λ _. IsCutTag table body errors.new.items) (λ e. e ≡ Memory) }
        ensures grows { Grows names.old names.new }
    {
        match self.phase {
            TagState::TagName | TagState::BeforeAttributeName | TagState::SelfClosingStartTag => Ok(
                (),
            ),
            TagState::AttributeValueQuoted(_) | TagState::AttributeValueUnquoted => {
                self.value.end(errors)?;
                self.end_attribute(names, errors)
            }
            TagState::AttributeName
            | TagState::AfterAttributeName
            | TagState::BeforeAttributeValue
            | TagState::AfterAttributeValueQuoted => self.end_attribute(names, errors),
        }
    }

    /// An attribute has been read: keeps the first one of its name.
    #[inline(never)]
    fn end_attribute(&mut self, names: &mut Names, errors: &mut Errors) -> Result<(), Refusal>
        ensures ended { MatchResult result (λ _. EndsAttribute names.old names.new self.old errors.old.items self.new errors.new.items) (λ e. e ≡ Memory) }
        ensures grows { Grows names.old names.new }
    {
        let name = names.intern(self.alloc, &self.attribute)?;
        let attr = Attr::new(name, &self.value.text, self.alloc)?;
        self.keep(attr, errors)
    }

    /// Keeps an attribute if it is the first of its name, as leaving the attribute name state says (`#attribute-name-state`).
    #[inline(always)]
    pub(crate) fn keep(&mut self, attr: Attr, errors: &mut Errors) -> Result<(), Refusal>
        ensures keeps { (before after : Texts) (it : Attribute) → Grows before after → AreNames after → slice_get after attr.name ≡ Some it.name
            → attr.value ≡ it.value → it.at ≡ self.old.at
            → OnOk result (EndsAs it before after self.old errors.old.items self.new errors.new.items) }
        ensures memory { IfErr result (λ e. e ≡ Memory) }
        ensures kind { OnOk result (self.new.kind ≡ self.old.kind) }
    {
        let number = attr.name().index();
        if number >= MAX_NUMBER {
            return Err(Refusal::Memory);
        }
        self.phase = TagState::BeforeAttributeName;
        self.any = true;
        if self.seen.add(number)? {
            self.attrs.push(attr)?;
        } else {
            keep_if(true, ErrorCode::DuplicateAttribute, self.at, errors)?;
        }
        Ok(())
    }
}
