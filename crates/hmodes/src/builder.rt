//! The builder of a tree: it takes tokens and runs of text, and gives the tree with its errors, or one refusal.

ghost use Rattle.std.specs.Prelude.{◌≡◌, ◌+◌, ◌-◌, ◌<◌, ◌≤◌, ◌++◌, ◌==◌, ◌&&◌, not, List, [], Some, None, true, Err, length, is_none, IfErr, IfOk, MatchResult, slice_get};
ghost use Rattle.std.specs.List.{list_all};
ghost use Rattle.std.specs.Option.{option_map};
ghost use Rattle.std.specs.Result.{result_err};
ghost use Rattle.std.specs.Str.{chars};
ghost use Rattle.hmodes.specs.Vocabulary.{Refused, Memory, numbers, document_begins, fragment_begins, token_of, TakesTokenAt, TakesToken, puts_run, pends_run, AreSome, puts_each, takes_char, is_clean, MAX_INPUT, run_tokens, IsTextWithReferences, placed};
ghost use Rattle.hmodes.specs.Vocabulary.{Placed, Hands};

use crate::beginning::{context_mode, control_in, form_pointer, fragment_site};
use crate::limits::Limits;
use crate::mode::Mode;
use crate::tree_construction::TreeConstruction;
use hadopt::Site;
use hmarkup::{ErrorSink, Quirks};
use hnodes::{NodeId, Tree};
use htoken::{Token, TokenSink};
use names::{Keys, NameId, Names, ParseError, Refusal};
use std::alloc::{AllocError, Global};
use std::marker::Model;

/// Builds the tree of a document or a fragment from its tokens. After a refusal each further call returns the same refusal and changes nothing.
pub struct Builder<'q> {
    state: TreeConstruction<'q>,
    root: NodeId,
    tokenizer_errors: Vec<ParseError>,
    refused: Option<Refusal>,
}

// Written out: a derived drop is read anew in the proof of each function that may drop a builder.
impl<'q> Drop for Builder<'q> {
    fn drop(self) {
        let Builder {
            state,
            root: _,
            tokenizer_errors,
            refused: _,
        } = self;
        drop(state);
        drop(tokenizer_errors);
    }
}

impl<'q> Model for Builder<'q> {
    ghost use Rattle.std.specs.Prelude.{◌≡◌, None};
    ghost use Rattle.std.specs.Coded.{codes};
    ghost use Rattle.hnodes.specs.Coding.{coded_forest};
    ghost use Rattle.hmodes.specs.States.{state_of};
    ghost use Rattle.hmodes.specs.Building.{Building, BuilderStands};

    ghost Value = { Building };

    ghost coded = { Prim.hlevel (codes, coded_forest) };

    ghost view = { λ b. record { state = state_of b.state; root = b.root; tokenizer_errors = b.tokenizer_errors.items; refused = b.refused } };

    ghost invariant = { λ b. b.refused ≡ None → BuilderStands b.root (state_of b.state) };
}

/// What was built: the tree, the document or a fragment's root element, and the parse errors: those of the rules in the order in
/// which they were raised, then those that were handed over. And the elements that were made again, by reconstructing the active
/// formatting elements or by the adoption agency, in order, each with the element whose entry it was made for.
#[derive(Drop)]
pub struct Built {
    pub tree: Tree,
    pub root: NodeId,
    pub errors: Vec<ParseError>,
    pub again: Vec<(NodeId, NodeId)>,
}

impl<'q> Builder<'q> {
    /// The builder of a document. An error is `Memory`. No result depends on the keys.
    pub fn document(
        alloc: Global,
        keys: Keys,
        quirks: &'q Quirks,
        limits: Limits,
    ) -> Result<Builder<'q>, Refusal>
        ensures { MatchResult result
            (λ b. b ≡ record { state = document_begins quirks.now limits.tree; root = 0; tokenizer_errors = []; refused = None }) (λ e. e ≡ Memory) }
    {
        let site = Site::new(alloc, keys, limits.nodes(), limits.depth())?;
        let root = site.tree().document();
        let state = TreeConstruction {
            site,
            control: control_in(alloc, Mode::Initial, None),
            context: None,
            quirks_list: Some(quirks),
            alloc,
        };
        Ok(Builder {
            state,
            root,
            tokenizer_errors: Vec::new(alloc),
            refused: None,
        })
    }

    /// The builder of a fragment in a context element of this name (`#html-fragment-parsing-algorithm`). An error is `Memory`.
    pub fn fragment(
        alloc: Global,
        keys: Keys,
        context: NameId,
        limits: Limits,
    ) -> Result<Builder<'q>, Refusal>
        ensures { MatchResult result (λ b. b ≡ record { state = fragment_begins numbers context limits.tree; root = 1; tokenizer_errors = []; refused = None })
            (λ e. e ≡ Memory) }
    {
        let (site, root) = fragment_site(alloc, keys, limits)?;
        let tag = context.tag();
        let state = TreeConstruction {
            control: control_in(alloc, context_mode(tag), form_pointer(&site, tag)),
            site,
            context: Some(context),
            quirks_list: None,
            alloc,
        };
        Ok(Builder {
            state,
            root,
            tokenizer_errors: Vec::new(alloc),
            refused: None,
        })
    }

    /// How many nodes were made.
    pub fn made(&self) -> u32
        ensures { result ≡ self.now.state.site.nodes.made }
    {
        self.state.site.tree().made()
    }

    /// The tree as it is so far.
    pub fn tree(&self) -> &Tree
        ensures { result.now ≡ self.now.state.site.nodes }
    {
        self.state.site.tree()
    }

    /// The place of the first pending table character (`#parsing-main-intabletext`), if one is pending.
    pub fn first_pending(&self) -> Option<u64>
        ensures { result ≡ option_map (λ c. c.at) (slice_get self.now.state.control.pending 0) }
    {
        Some(self.state.control.pending.first()?.at)
    }

    /// The tree, its root, the parse errors, and which elements were made again. A builder that has refused gives the same refusal
    /// and no tree, since its tree may be between two edits of a token. Any other error is `Memory`.
    pub fn finish(self) -> Result<Built, Refusal>
        ensures tree { IfOk result (λ built. built.tree ≡ self.entry.state.site.nodes) }
        ensures root { IfOk result (λ built. (built.root ≡ self.entry.root) × (built.root < built.tree.made)) }
        ensures errors { IfOk result (λ built. built.errors.items ≡ self.entry.state.site.errors ++ self.entry.tokenizer_errors) }
        ensures made_again { IfOk result (λ built. built.again.items ≡ self.entry.state.site.again) }
        ensures again { (refusal : Refused) → self.entry.refused ≡ Some refusal → result ≡ Err refusal }
        ensures memory { self.entry.refused ≡ None → IfErr result (λ refusal. refusal ≡ Memory) }
    {
        let Builder {
            state,
            root,
            tokenizer_errors,
            refused,
        } = self;
        if let Err(refusal) = again(refused) {
            drop(state);
            drop(tokenizer_errors);
            return Err(refusal);
        }
        let TreeConstruction { site, .. } = state;
        let (tree, raised, again) = site.into_parts();
        let errors = joined(raised, tokenizer_errors)?;
        Ok(Built {
            tree,
            root,
            errors,
            again,
        })
    }

    /// Takes the first character of a run by itself. If what is left can be put or kept whole then, as after one that changes the mode, or
    /// an LF that is dropped, it is; otherwise its characters are taken one by one.
    fn take_first(&mut self, run: &str, at: u64) -> Result<(), Refusal>
        requires clean { list_all is_clean (chars run.now) ≡ true }
        requires within { at + length run.now ≤ MAX_INPUT }
        ensures { Hands TakesToken self.old (run_tokens (placed at (chars run.now))) result self.new }
    {
        let mut chars = run.chars();
        let Some(ch) = chars.next() else {
            return Ok(());
        };
        self.take_text(ch, at)?;
        let rest = chars.as_str();
        let next = rest_place(run, rest, at);
        if self.puts_run(rest) {
            return self.put_run(rest, next);
        }
        if self.pends_run(rest) {
            return self.pend_run(rest, next);
        }
        self.take_run_by_one(rest, next)
    }

    /// Whether a run has characters, nothing was refused, and each of them is put as it is.
    #[inline(always)]
    fn puts_run(&self, run: &str) -> bool
        ensures { result ≡ puts_run run.now self.now }
    {
        !run.is_empty() && self.may_take_with_references()
    }

    /// Whether a character is not NUL, nothing was refused, and the rules put or keep it at once.
    #[inline(always)]
    fn puts_char(&self, ch: char) -> bool
        ensures { result ≡ (not (ch == 0) && is_none self.now.refused && takes_char self.now.state) }
    {
        ch != '\0' && self.refused.is_none() && self.state.takes_char()
    }

    /// Puts a run whole. The same comes of it wherever all characters but the first are.
    #[inline(always)]
    fn put_run(&mut self, run: &str, at: u64) -> Result<(), Refusal>
        requires some { AreSome (chars run.now) }
        requires puts { puts_run run.now self.old ≡ true }
        ensures { (text : List Placed) → IsTextWithReferences text run.now at → Hands TakesToken self.old (run_tokens text) result self.new }
    {
        self.state.begin();
        let answer = self.state.put_run(run, at);
        keep(&mut self.refused, answer);
        answer
    }

    /// Whether a run has characters, nothing was refused, and each of them is kept as pending.
    #[inline(always)]
    fn pends_run(&self, run: &str) -> bool
        ensures { result ≡ pends_run run.now self.now }
    {
        !run.is_empty() && self.refused.is_none() && self.state.pends_each()
    }

    /// Keeps the characters of a run as pending.
    #[inline(always)]
    fn pend_run(&mut self, run: &str, at: u64) -> Result<(), Refusal>
        requires some { AreSome (chars run.now) }
        requires within { at + length run.now ≤ MAX_INPUT }
        requires pends { pends_run run.now self.old ≡ true }
        ensures { Hands TakesToken self.old (run_tokens (placed at (chars run.now))) result self.new }
    {
        self.state.begin();
        let answer = self.state.pend_run(run, at);
        keep(&mut self.refused, answer);
        answer
    }

    /// Takes a token, whose first byte is at this place. What it leaves of the token is the caller's.
    #[inline(always)]
    pub fn take(&mut self, token: &mut Token, at: u64) -> Result<(), Refusal>
        ensures { TakesTokenAt at (token_of token.old) self.old result self.new }
    {
        again(self.refused)?;
        let answer = self.state.step(token, at);
        keep(&mut self.refused, answer);
        answer
    }
}

/// The first errors and then the second. Only the shorter list is copied.
fn joined(
    mut first: Vec<ParseError>,
    mut second: Vec<ParseError>,
) -> Result<Vec<ParseError>, AllocError>
    ensures { IfOk result (λ all. all.items ≡ first.items ++ second.items) }
{
    if second.len() <= first.len() {
        first.append(&mut second)?;
        return Ok(first);
    }
    let count = first.len();
    second.append(&mut first)?;
    second.rotate_right(count);
    Ok(second)
}

/// What a call answers first: a refusal is answered again.
#[inline(always)]
fn again(refused: Option<Refusal>) -> Result<(), Refusal>
    ensures { MatchResult result (λ u. refused ≡ None) (λ refusal. refused ≡ Some refusal) }
{
    match refused {
        Some(refusal) => Err(refusal),
        None => Ok(()),
    }
}

/// Keeps the refusal of an answer. A call that refuses nothing writes nothing.
#[inline(always)]
fn keep(refused: &mut Option<Refusal>, answer: Result<(), Refusal>)
    requires { refused.old ≡ None }
    ensures { refused.new ≡ result_err answer }
{
    if let Err(refusal) = answer {
        *refused = Some(refusal);
    }
}

/// The place of what is left of a run, whose first byte is at this place.
#[inline(always)]
fn rest_place(run: &str, rest: &str, at: u64) -> u64
    requires within { at + length run.now ≤ MAX_INPUT }
    requires rest { length rest.now ≤ length run.now }
    ensures { result ≡ at + (length run.now - length rest.now) }
{
    at + (run.len() - rest.len()) as u64
}

impl<'q> ErrorSink for Builder<'q> {
    ghost use Rattle.hmodes.specs.Building.{TakesError};

    ghost gives = { TakesError };

    fn take_error(&mut self, error: ParseError) -> Result<(), Refusal> {
        again(self.refused)?;
        if self.tokenizer_errors.push(error).is_err() {
            self.refused = Some(Refusal::Memory);
            return Err(Refusal::Memory);
        }
        Ok(())
    }
}

impl<'q> TokenSink for Builder<'q> {
    ghost use Rattle.hmodes.specs.Building.{TakesToken};

    ghost gives_token = { TakesToken };

    fn take_token(&mut self, mut token: Token) -> Result<(), Refusal> {
        let at = token.place();
        self.take(&mut token, at)
    }

    #[inline(always)]
    fn take_tag(&mut self, token: &mut Token, _names: &Names) -> Result<(), Refusal> {
        let at = token.place();
        self.take(token, at)
    }

    fn take_text(&mut self, ch: char, at: u64) -> Result<(), Refusal> {
        if !self.puts_char(ch) {
            let mut token = Token::Char { ch, at };
            return self.take(&mut token, at);
        }
        self.state.begin();
        let answer = self.state.put_one(ch, at);
        keep(&mut self.refused, answer);
        answer
    }

    fn take_run(&mut self, run: &str, at: u64) -> Result<(), Refusal> {
        if self.puts_run(run) {
            return self.put_run(run, at);
        }
        self.take_first(run, at)
    }

    #[inline(always)]
    fn may_take_with_references(&self) -> bool
        ensures { result ≡ (is_none self.now.refused && puts_each self.now.state) }
    {
        self.refused.is_none() && self.state.puts_each()
    }

    fn take_with_references(&mut self, run: &str, at: u64) -> Result<bool, Refusal> {
        if !self.puts_run(run) {
            return Ok(false);
        }
        self.put_run(run, at)?;
        Ok(true)
    }

    fn take_bad(&mut self, count: usize, at: u64) -> Result<(), Refusal> {
        match "\u{FFFD}".repeat(self.state.alloc, count) {
            Ok(run) if self.puts_run(&run) => self.put_run(&run, at),
            _ => self.take_bad_by_one(count, at),
        }
    }
}
