//! A token: how it begins, the rules that it goes by, and how it ends (HTML Standard, `#tree-construction`).

ghost use Rattle.std.specs.Prelude.{◌≡◌, ℕ, ◌<◌, IfSome};
ghost use Rattle.hmodes.specs.Vocabulary.{Goes, HasBegun, IsReprocessed, ChainGives, StepGives, Reached, rule_of, is_self_closing, Rule, is_dropped, step_begun, finished, Gives, numbers, TokenOf, state_of, token_of, IsSound, FlowGives, AfterHead};
ghost use Rattle.hmodes.specs.Vocabulary.{Performs};

use crate::mode::Mode;
use crate::token_kind::TokenKind;
use crate::tree_construction::{Flow, Ruling, TreeConstruction};
use htoken::Token;
use names::{ErrorCode, Refusal};

impl<'q> TreeConstruction<'q> {
    /// A token: ignored if it is the LF that is to be dropped, and otherwise by the rules.
    #[inline(always)]
    pub(crate) fn step(&mut self, token: &mut Token, at: u64) -> Result<(), Refusal>
        requires { Reached numbers (state_of self.old) }
        ensures { StepGives at (token_of token.old) (state_of self.old) result (state_of self.new) }
    {
        let dropped = self.is_dropped(token);
        self.begin();
        if dropped {
            return Ok(());
        }
        self.by_rules(token, at)
    }

    /// By the rules of the mode that holds, as long as one reprocesses the token.
    #[inline(always)]
    fn by_rules(&mut self, token: &mut Token, at: u64) -> Result<(), Refusal>
        requires { HasBegun (state_of self.old) }
        ensures { ChainGives at (token_of token.old) (state_of self.old) result (state_of self.new) }
    {
        let closing = is_self_closing(token);
        match self.rule(token, at)? {
            Flow::Done => self.end(closing, at),
            Flow::Again => self.by_further_rules(token, at),
        }
    }

    /// By the rules that follow the first.
    #[inline(never)]
    fn by_further_rules(&mut self, token: &mut Token, at: u64) -> Result<(), Refusal>
        requires { IsReprocessed at (token_of token.old) (state_of self.old) }
        ensures { ChainGives at (token_of token.old) (state_of self.old) result (state_of self.new) }
    {
        loop {
            let closing = is_self_closing(token);
            match self.rule(token, at)? {
                Flow::Done => return self.end(closing, at),
                Flow::Again => {}
            }
        }
    }

    #[inline(always)]
    fn is_dropped(&self, token: &Token) -> bool
        ensures { result ≡ is_dropped (token_of token.now) (state_of self.now) }
    {
        match token {
            Token::Char { ch, .. } => self.control.drop_lf && *ch == '\n',
            _ => false,
        }
    }

    #[inline(always)]
    pub(crate) fn begin(&mut self)
        ensures { state_of self.new ≡ step_begun (state_of self.old) }
    {
        self.control.drop_lf = false;
        self.control.acknowledged = false;
    }

    /// A token ends: a self-closing flag that no rule acknowledged is a parse error (`#acknowledge-self-closing-flag`).
    #[inline(always)]
    fn end(&mut self, closing: bool, at: u64) -> Result<(), Refusal>
        ensures { (token : TokenOf ℕ) → is_self_closing token ≡ closing → Gives result (state_of self.new) (Goes (finished at token (state_of self.old))) }
    {
        if !closing || self.control.acknowledged {
            return Ok(());
        }
        let code = ErrorCode::NonVoidHtmlElementStartTagWithTrailingSolidus;
        self.site.error(code, at)
    }

    /// One rule for a token: of the mode that holds, which is "in body" for most tokens.
    #[inline(always)]
    pub(crate) fn rule(&mut self, token: &mut Token, at: u64) -> Ruling
        requires kept { IsSound numbers self.old.site }
        requires head { self.old.control.mode ≡ AfterHead → IfSome self.old.control.head (λ k. (0 < k) × (k < self.old.site.nodes.made)) }
        ensures { FlowGives result (token_of token.new) (state_of self.new) (Rule numbers at (token_of token.old) (state_of self.old)) }
    {
        let kind = TokenKind::of(token);
        match self.control.mode {
            Mode::InBody => self.in_body(kind, token, at),
            _ => self.rule_of_mode(kind, token, at),
        }
    }

    #[inline(never)]
    fn rule_of_mode(&mut self, kind: TokenKind, token: &mut Token, at: u64) -> Ruling
        requires kept { IsSound numbers self.old.site }
        requires head { self.old.control.mode ≡ AfterHead → IfSome self.old.control.head (λ k. (0 < k) × (k < self.old.site.nodes.made)) }
        ensures { Performs at (rule_of self.old.control.mode kind) token.old self.old result token.new self.new }
    {
        match self.control.mode {
            Mode::Initial => self.initial(kind, token, at),
            Mode::BeforeHtml => self.before_html(kind, token, at),
            Mode::BeforeHead => self.before_head(kind, token, at),
            Mode::InHead => self.in_head(kind, token, at),
            Mode::InHeadNoscript => self.in_head_noscript(kind, token, at),
            Mode::AfterHead => self.after_head(kind, token, at),
            Mode::InBody => self.in_body(kind, token, at),
            Mode::Text => self.text(kind, token, at),
            Mode::InTable => self.in_table(kind, token, at),
            Mode::InTableText => self.in_table_text(kind, token, at),
            Mode::InCaption => self.in_caption(kind, token, at),
            Mode::InColumnGroup => self.in_column_group(kind, token, at),
            Mode::InTableBody => self.in_table_body(kind, token, at),
            Mode::InRow => self.in_row(kind, token, at),
            Mode::InCell => self.in_cell(kind, token, at),
            Mode::AfterBody => self.after_body(kind, token, at),
            Mode::AfterAfterBody => self.after_after_body(kind, token, at),
        }
    }
}

/// Whether a token is a start tag with its self-closing flag set (`#self-closing-flag`).
#[inline(always)]
fn is_self_closing(token: &Token) -> bool
    ensures { result ≡ is_self_closing (token_of token.now) }
{
    matches!(token, Token::Start { closing: true, .. })
}
