//! The steps that the rules of the insertion modes are made of, and what they ask (HTML Standard, `#creating-and-inserting-nodes` to
//! `#parsing-main-inhtml`).

ghost use Rattle.std.specs.Prelude.{IfOk, [], ◌≡◌, if◌then◌else◌};
ghost use Rattle.hmodes.specs.Vocabulary.{current_node, on_site, site_becomes, inserted_here, completed, html_again, DoneOf, performed, IsSound, numbers, from_top, StateGives, perform, void, raw, close_p_in_scope, character};
ghost use Rattle.hmodes.specs.Vocabulary.{token_attrs, state_of, token_of, InBody, error, insert, put, unless, current_is_name, pop_to_name, implied, clear_to_marker, ◌▸◌};
ghost use Rattle.hmodes.specs.Vocabulary.{insert_comment, comment_in_document, comment_in_first, implied_except_name, Performs, AlwaysPerforms, Does, DoesFor};

use crate::mode::Mode;
use crate::token::{take_attrs, take_text, token_char, token_name};
use crate::tree_construction::{Flow, Ruling, TreeConstruction, done};
use hadopt::Passing;
use hnodes::NodeId;
use hopen::Scope;
use htoken::Token;
use names::{NameId, Refusal, Tag};

impl<'q> TreeConstruction<'q> {
    pub(crate) fn error(&mut self, mode: Mode, at: u64) -> Result<(), Refusal>
        ensures done { Does at (error mode) self.old result self.new }
        ensures kept { IsSound numbers self.old.site → IfOk result (λ _. IsSound numbers self.new.site) }
    {
        self.site.error(mode.code(), at)
    }

    /// A parse error, and the token is ignored.
    pub(crate) fn ignore(&mut self, mode: Mode, at: u64) -> Ruling
        ensures { AlwaysPerforms at (error mode) self.old result self.new }
    {
        done(self.error(mode, at))
    }

    #[inline(always)]
    pub(crate) fn error_unless(&mut self, holds: bool, mode: Mode, at: u64) -> Result<(), Refusal>
        ensures { StateGives result (state_of self.new) (if holds then DoneOf (state_of self.old) else performed at (error mode) (state_of self.old)) }
    {
        if holds {
            return Ok(());
        }
        self.error(mode, at)
    }

    /// An HTML element for a start tag at the appropriate place (`#insert-an-html-element`).
    pub(crate) fn insert(&mut self, token: &mut Token, at: u64) -> Result<(), Refusal>
        ensures done { StateGives result (state_of self.new) (perform numbers at (token_of token.old) insert (state_of self.old)) }
        ensures kept { IsSound numbers self.old.site → IfOk result (λ _. IsSound numbers self.new.site) }
    {
        let name = token_name(token);
        // No rule inserts one for another token.
        let Token::Start { attrs, .. } = token else {
            return self.insert_named(name, at);
        };
        let place = self.site.place();
        self.site.insert_element(name, attrs, place, at)?;
        Ok(())
    }

    /// An element of a name, without attributes.
    pub(crate) fn insert_named(&mut self, name: NameId, at: u64) -> Result<(), Refusal>
        ensures done { StateGives result (state_of self.new) (on_site (inserted_here numbers at name []) (state_of self.old)) }
        ensures kept { IsSound numbers self.old.site → IfOk result (λ _. IsSound numbers self.new.site) }
    {
        let place = self.site.place();
        self.site
            .insert_element(name, &mut Vec::new(self.alloc), place, at)?;
        Ok(())
    }

    /// A comment last in the current node (`#insert-a-comment`).
    pub(crate) fn insert_comment(&mut self, token: &mut Token, at: u64) -> Ruling
        ensures done { Performs at insert_comment token.old self.old result token.new self.new }
    {
        let text = take_text(self.alloc, token);
        let place = self.site.place_in_current();
        self.site.insert_comment(text, place, at)?;
        Ok(Flow::Done)
    }

    pub(crate) fn comment_in_document(&mut self, token: &mut Token, at: u64) -> Ruling
        ensures done { Performs at comment_in_document token.old self.old result token.new self.new }
    {
        let text = take_text(self.alloc, token);
        let place = self.site.place_in_document();
        self.site.insert_comment(text, place, at)?;
        Ok(Flow::Done)
    }

    pub(crate) fn comment_in_first(&mut self, token: &mut Token, at: u64) -> Ruling
        ensures done { Performs at comment_in_first token.old self.old result token.new self.new }
    {
        let text = take_text(self.alloc, token);
        let place = self.site.place_in_first();
        self.site.insert_comment(text, place, at)?;
        Ok(Flow::Done)
    }

    pub(crate) fn put(&mut self, token: &Token, at: u64) -> Ruling
        ensures { Performs at put token.now self.old result token.now self.new }
    {
        done(self.put_char(token_char(token), at))
    }

    /// A character at the appropriate place (`#insert-a-character`).
    #[inline(always)]
    pub(crate) fn put_char(&mut self, ch: char, at: u64) -> Result<(), Refusal>
        ensures { StateGives result (state_of self.new) (perform numbers at (character ch) put (state_of self.old)) }
    {
        let place = self.site.place();
        self.site.put(ch, place, at)
    }

    /// An open node, counted from the first, gets those of the token's attributes that it lacks.
    pub(crate) fn add_missing(&mut self, down: usize, token: &mut Token) -> Result<(), Refusal>
        ensures { StateGives result (state_of self.new)
            (site_becomes (completed numbers (from_top down self.old.site) (token_attrs (token_of token.old))) (state_of self.old)) }
    {
        let attrs = take_attrs(self.alloc, token);
        let node = match self.site.from_top(down) {
            Some(open_node) => open_node.node,
            None => self.site.tree().document(),
        };
        self.site.add_missing(node, attrs)
    }

    /// The start tag html where it is not the first.
    pub(crate) fn html_again(&mut self, token: &mut Token, at: u64) -> Ruling
        ensures { Performs at html_again token.old self.old result token.new self.new }
    {
        self.error(Mode::InBody, at)?;
        done(self.add_missing(0, token))
    }

    /// A start tag whose element has no content; its self-closing flag is acknowledged.
    pub(crate) fn void(&mut self, token: &mut Token, at: u64) -> Result<(), Refusal>
        ensures { StateGives result (state_of self.new) (perform numbers at (token_of token.old) void (state_of self.old)) }
    {
        self.insert(token, at)?;
        self.site.pop();
        self.control.acknowledged = true;
        Ok(())
    }

    /// The generic raw text element parsing algorithm and the generic RCDATA element parsing algorithm
    /// (`#generic-raw-text-element-parsing-algorithm`, `#generic-rcdata-element-parsing-algorithm`).
    pub(crate) fn raw(&mut self, token: &mut Token, at: u64) -> Result<(), Refusal>
        ensures { StateGives result (state_of self.new) (perform numbers at (token_of token.old) raw (state_of self.old)) }
    {
        self.insert(token, at)?;
        self.control.saved = self.control.mode;
        self.control.mode = Mode::Text;
        Ok(())
    }

    #[inline(always)]
    pub(crate) fn close_p_in_scope(&mut self, at: u64) -> Result<(), Refusal>
        ensures done { Does at close_p_in_scope self.old result self.new }
    {
        if self.site.in_scope(Scope::Button, Tag::P.number()) {
            return self.site.close_p(at);
        }
        Ok(())
    }

    /// Pops up to and with the nearest element of a name; it is an error unless that is the current node.
    pub(crate) fn pop_to(&mut self, mode: Mode, name: NameId, at: u64) -> Result<(), Refusal>
        ensures { DoesFor name at (unless current_is_name (error mode) ▸ pop_to_name) self.old result self.new }
    {
        let is_current = self.site.current_is(name);
        self.error_unless(is_current, mode, at)?;
        self.site.pop_to(name);
        Ok(())
    }

    /// Closes the nearest element of a name, and the formatting elements up to its marker.
    pub(crate) fn close_marked(&mut self, mode: Mode, name: NameId, at: u64) -> Result<(), Refusal>
        ensures { DoesFor name at (implied ▸ unless current_is_name (error mode) ▸ pop_to_name ▸ clear_to_marker) self.old result self.new }
    {
        self.site.pop_past(Passing::Implied(None));
        self.pop_to(mode, name, at)?;
        self.site.clear_to_marker();
        Ok(())
    }

    /// Closes the nearest element of a name, all whose implied end tags are generated but for its own.
    pub(crate) fn close_item(&mut self, name: NameId, at: u64) -> Result<(), Refusal>
        ensures { DoesFor name at (implied_except_name ▸ unless current_is_name (error InBody) ▸ pop_to_name) self.old result self.new }
    {
        self.site.pop_past(Passing::Implied(Some(name)));
        self.pop_to(Mode::InBody, name, at)
    }

    /// The current node; the document where no node is open.
    pub(crate) fn current_node(&self) -> NodeId
        ensures { result ≡ current_node self.now.site }
    {
        let document = self.site.tree().document();
        self.site
            .current()
            .map_or(document, |open_node| open_node.node)
    }
}
