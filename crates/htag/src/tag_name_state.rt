//! A tag's name, and what is between its attributes.

ghost use Rattle.std.specs.Prelude.{◌≡◌, OnOk};
ghost use Rattle.htag.specs.Vocabulary.{BeginsAttribute, Texts, Entities, StepsInTag};

use crate::push::{Errors, ends_name, keep_if, keep_null, kept};
use crate::tag_state::TagState;
use crate::walk::TagWalk;
use names::{ErrorCode, Placed, Refusal};
use std::alloc::AllocError;

impl<'t> TagWalk<'t> {
    /// The tag name state (`#tag-name-state`). Returns whether the tag has ended with the character.
    #[inline(always)]
    pub(crate) fn in_tag_name(&mut self, next: Placed, errors: &mut Errors) -> Result<bool, Refusal>
        requires { self.old.phase ≡ TagState.TagName }
        ensures takes { (table : Entities) (names : Texts) → StepsInTag table names names self.old next errors.old.items result self.new errors.new.items }
        ensures kind { OnOk result (self.new.kind ≡ self.old.kind) }
    {
        if ends_name(next.ch) {
            self.phase = TagState::BeforeAttributeName;
            return self.before_attribute_name(next, errors);
        }
        keep_null(next, errors)?;
        self.name.push(kept(next.ch).to_ascii_lowercase())?;
        Ok(false)
    }

    /// The before attribute name state (`#before-attribute-name-state`). Returns whether the tag has ended with the character.
    #[inline(always)]
    pub(crate) fn before_attribute_name(
        &mut self,
        next: Placed,
        errors: &mut Errors,
    ) -> Result<bool, Refusal>
        requires { self.old.phase ≡ TagState.BeforeAttributeName }
        ensures takes { (table : Entities) (names : Texts) → StepsInTag table names names self.old next errors.old.items result self.new errors.new.items }
        ensures kind { OnOk result (self.new.kind ≡ self.old.kind) }
    {
        if next.ch == '>' {
            self.closing = false;
            return Ok(true);
        }
        if next.ch.is_ascii_whitespace() {
            return Ok(false);
        }
        if next.ch == '/' {
            self.phase = TagState::SelfClosingStartTag;
            return Ok(false);
        }
        self.begin_attribute(next, errors)?;
        Ok(false)
    }

    #[inline(always)]
    fn begin_attribute(&mut self, next: Placed, errors: &mut Errors) -> Result<(), AllocError>
        ensures { OnOk result (BeginsAttribute self.old next errors.old.items self.new errors.new.items) }
    {
        let code = ErrorCode::UnexpectedEqualsSignBeforeAttributeName;
        keep_if(next.ch == '=', code, next.at, errors)?;
        self.attribute.clear();
        self.value.begin();
        self.at = next.at;
        self.phase = TagState::AttributeName;
        self.push_name(next, errors)
    }

    /// The self-closing start tag state (`#self-closing-start-tag-state`), after a `/`. Returns whether the tag has ended with the character.
    pub(crate) fn self_closing_start_tag(
        &mut self,
        next: Placed,
        errors: &mut Errors,
    ) -> Result<bool, Refusal>
        requires { self.old.phase ≡ TagState.SelfClosingStartTag }
        ensures takes { (table : Entities) (names : Texts) → StepsInTag table names names self.old next errors.old.items result self.new errors.new.items }
        ensures kind { OnOk result (self.new.kind ≡ self.old.kind) }
    {
        if next.ch == '>' {
            self.closing = true;
            return Ok(true);
        }
        keep_if(true, ErrorCode::UnexpectedSolidusInTag, next.at, errors)?;
        self.phase = TagState::BeforeAttributeName;
        self.before_attribute_name(next, errors)
    }
}
