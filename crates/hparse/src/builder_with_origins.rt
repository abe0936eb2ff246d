//! A builder of a tree that keeps where the nodes came from.

ghost use Rattle.std.specs.Prelude.{◌≡◌, option_map, IfOk, IfErr};
ghost use Rattle.hparse.specs.Vocabulary.{Alone, Memory, Given, first_of, makings_if, makings_of, numbers, token_at, own_name, TakesTokenWithOrigins, token_of, with_made};

use crate::origins::{Maker, Origin, first_makings, own_name};
use hmarkup::ErrorSink;
use hmodes::Builder;
use htoken::{Token, TokenSink};
use names::{Names, ParseError, Refusal};
use std::alloc::{AllocError, Global};

/// A builder, and how the nodes were made that it has, if that is asked for.
pub struct BuilderWithOrigins<'q> {
    pub(crate) builder: Builder<'q>,
    pub(crate) makings: Option<Vec<Origin>>,
}

// Written out, as that of a parser.
impl<'q> Drop for BuilderWithOrigins<'q> {
    fn drop(self) {
        let BuilderWithOrigins { builder, makings } = self;
        drop(builder);
        drop(makings);
    }
}

impl<'q> BuilderWithOrigins<'q> {
    /// A builder that has been handed nothing.
    pub fn new(
        alloc: Global,
        builder: Builder<'q>,
        places: bool,
    ) -> Result<BuilderWithOrigins<'q>, AllocError>
        ensures builder { IfOk result (λ it. it.builder ≡ builder.entry) }
        ensures makings { IfOk result (λ it. makings_of it ≡ makings_if places builder.entry.state) }
    {
        let made = builder.made();
        let makings = if places {
            Some(first_makings(alloc, made)?)
        } else {
            None
        };
        Ok(BuilderWithOrigins { builder, makings })
    }

    /// The builder, and how the nodes were made, by their numbers.
    pub fn into_parts(self) -> (Builder<'q>, Option<Vec<Origin>>)
        ensures builder { result.0 ≡ self.entry.builder }
        ensures makings { result.1 ≡ self.entry.makings }
    {
        let BuilderWithOrigins { builder, makings } = self;
        (builder, makings)
    }

    /// What is known of a token before its step.
    fn maker(&self, token: &Token) -> Maker
        ensures at { result.at ≡ token_at token.now }
        ensures first { result.first ≡ first_of (token_of token.now) (token_at token.now) self.now.builder.state }
        ensures own { result.own ≡ own_name numbers (token_of token.now) }
    {
        let at = token.place();
        let first = match token {
            Token::Char { .. } => at,
            _ => self.builder.first_pending().unwrap_or(at),
        };
        Maker {
            at,
            first,
            own: own_name(token),
        }
    }

    /// Keeps how the nodes were made that the builder has made in the step of a token.
    fn keep(&mut self, maker: &Maker) -> Result<(), Refusal>
        ensures builder { self.new.builder ≡ self.old.builder }
        ensures makings { IfOk result (λ u. makings_of self.new
            ≡ option_map (with_made numbers maker.now.at maker.now.first maker.now.own self.old.builder.state.site.nodes) (makings_of self.old)) }
        ensures memory { IfErr result (λ e. e ≡ Memory) }
    {
        if let Some(makings) = &mut self.makings {
            maker.add(self.builder.tree(), makings)?;
        }
        Ok(())
    }

    /// Takes a token, and keeps how the nodes are made that it makes.
    #[inline(never)]
    fn place_token(&mut self, token: &mut Token) -> Result<(), Refusal>
        ensures { TakesTokenWithOrigins self.old (Alone token.old) result self.new }
    {
        let maker = self.maker(token);
        self.builder.take(token, maker.at)?;
        self.keep(&maker)
    }

    /// Takes a character of text in the same way.
    #[inline(never)]
    fn place_text(&mut self, ch: char, at: u64) -> Result<(), Refusal>
        ensures { TakesTokenWithOrigins self.old (Alone (Given.Char ch at)) result self.new }
    {
        self.builder.take_text(ch, at)?;
        let maker = Maker {
            at,
            first: at,
            own: None,
        };
        self.keep(&maker)
    }
}

impl<'q> ErrorSink for BuilderWithOrigins<'q> {
    ghost use Rattle.hparse.specs.BuilderWithOrigins.{TakesErrorWithOrigins};

    ghost gives = { TakesErrorWithOrigins };

    fn take_error(&mut self, error: ParseError) -> Result<(), Refusal> {
        self.builder.take_error(error)
    }
}

impl<'q> TokenSink for BuilderWithOrigins<'q> {
    ghost use Rattle.hparse.specs.BuilderWithOrigins.{TakesTokenWithOrigins};

    ghost gives_token = { TakesTokenWithOrigins };

    #[inline(always)]
    fn take_token(&mut self, mut token: Token) -> Result<(), Refusal> {
        if self.makings.is_none() {
            return self.builder.take_token(token);
        }
        self.place_token(&mut token)
    }

    #[inline(always)]
    fn take_tag(&mut self, token: &mut Token, names: &Names) -> Result<(), Refusal> {
        if self.makings.is_none() {
            return self.builder.take_tag(token, names);
        }
        self.place_token(token)
    }

    #[inline(always)]
    fn take_text(&mut self, ch: char, at: u64) -> Result<(), Refusal> {
        if self.makings.is_none() {
            return self.builder.take_text(ch, at);
        }
        self.place_text(ch, at)
    }

    #[tactic(auto, using(crate::proofs::Placed::hands_without, crate::proofs::Placed::is_without))]
    #[inline(always)]
    fn take_run(&mut self, run: &str, at: u64) -> Result<(), Refusal> {
        if self.makings.is_none() {
            return self.builder.take_run(run, at);
        }
        self.take_run_by_one(run, at)
    }

    #[inline(always)]
    fn may_take_with_references(&self) -> bool {
        self.makings.is_none() && self.builder.may_take_with_references()
    }

    #[tactic(auto, using(crate::proofs::Placed::with_references_without, crate::proofs::Placed::is_without))]
    #[inline(always)]
    fn take_with_references(&mut self, run: &str, at: u64) -> Result<bool, Refusal> {
        if self.makings.is_none() {
            return self.builder.take_with_references(run, at);
        }
        Ok(false)
    }

    #[tactic(auto, using(crate::proofs::Placed::hands_without, crate::proofs::Placed::is_without))]
    #[inline(always)]
    fn take_bad(&mut self, count: usize, at: u64) -> Result<(), Refusal> {
        if self.makings.is_none() {
            return self.builder.take_bad(count, at);
        }
        self.take_bad_by_one(count, at)
    }
}
