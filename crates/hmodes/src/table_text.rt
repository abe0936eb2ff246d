//! The "in table text" insertion mode (HTML Standard, `#parsing-main-intabletext`), and characters of text, one alone or a run.

ghost use Rattle.std.specs.Prelude.{◌≡◌, List, ◌+◌, ◌≤◌, ◌++◌, ◌&&◌, [], true, false, if◌then◌else◌, length, map, OnOk, IfErr, string_bytes, encode_utf8_all};
ghost use Rattle.std.specs.List.{list_all};
ghost use Rattle.std.specs.Str.{chars};
ghost use Rattle.hmodes.specs.Vocabulary.{each_of, with_control, in_table_text, numbers, StateGives, perform, state_of, other_in_table, character, choose, put, Char, each_pending, pend, pending_rule, pending_is_ws, is_space, Performs, Does, Memory, MAX_INPUT, placed};
ghost use Rattle.hmodes.specs.Vocabulary.{Gives, with_site, Placed, IsTextWithReferences, puts_each, before_text, put_all, takes_char, char_rule, pends_each};

use crate::mode::Mode;
use crate::token::token_char;
use crate::token_kind::TokenKind::{self, *};
use crate::tree_construction::{Flow, Ruling, TreeConstruction, done};
use htoken::Token;
use names::{Placed, Refusal};
use std::alloc::AllocError;
use std::mem;

fn are_ws(pending: &[Placed]) -> bool
    ensures { result ≡ list_all (λ c. is_space c.ch) pending.now }
{
    pending.iter().all(|c| c.ch.is_ascii_whitespace())
}

/// Writes the characters into a text.
fn write(text: &mut String, pending: &[Placed]) -> Result<(), AllocError>
    ensures { OnOk result (string_bytes text.new ≡ encode_utf8_all (map (λ c. c.ch) pending.now)) }
{
    text.clear();
    for c in pending {
        text.push(c.ch)?;
    }
    Ok(())
}

/// Adds the characters of a run, the first byte of which is at this place.
fn push_run(pending: &mut Vec<Placed>, run: &str, at: u64) -> Result<(), Refusal>
    requires { at + length run.now ≤ MAX_INPUT }
    ensures added { OnOk result (pending.new.items ≡ pending.old.items ++ placed at (chars run.now)) }
    ensures memory { IfErr result (λ e. e ≡ Memory) }
{
    for (index, ch) in run.char_indices() {
        pending.push(Placed {
            ch,
            at: at + index as u64,
        })?;
    }
    Ok(())
}

impl<'q> TreeConstruction<'q> {
    pub(crate) fn in_table_text(&mut self, kind: TokenKind, token: &mut Token, at: u64) -> Ruling
        ensures { Performs at (in_table_text kind) token.old self.old result token.new self.new }
    {
        match kind {
            Nul => self.ignore(Mode::InTableText, at),
            Ws | Char => done(self.pend_char(token_char(token), at)),
            _ => {
                self.put_pending()?;
                self.control.mode = self.control.saved;
                Ok(Flow::Again)
            }
        }
    }

    #[inline(always)]
    pub(crate) fn pend_char(&mut self, ch: char, at: u64) -> Result<(), Refusal>
        ensures { StateGives result (state_of self.new) (perform numbers at (character ch) pend (state_of self.old)) }
    {
        self.control.pending.push(Placed { ch, at })?;
        Ok(())
    }

    pub(crate) fn pend_run(&mut self, run: &str, at: u64) -> Result<(), Refusal>
        requires { at + length run.now ≤ MAX_INPUT }
        ensures pending { OnOk result (state_of self.new
            ≡ with_control (record self.old.control { pending = self.old.control.pending ++ placed at (chars run.now) }) (state_of self.old)) }
        ensures memory { IfErr result (λ e. e ≡ Memory) }
    {
        push_run(&mut self.control.pending, run, at)
    }

    fn put_pending(&mut self) -> Result<(), Refusal>
        ensures { Does 0 (choose pending_is_ws (each_pending put) (each_pending (other_in_table Char))) self.old result self.new }
    {
        if !self.site.fosters() && are_ws(&self.control.pending) {
            return self.put_spaces();
        }
        let pending = self.take_pending();
        self.put_each(pending)
    }

    fn take_pending(&mut self) -> Vec<Placed>
        ensures taken { result.items ≡ self.old.control.pending }
        ensures rest { state_of self.new ≡ with_control (record self.old.control { pending = [] }) (state_of self.old) }
    {
        mem::replace(&mut self.control.pending, Vec::new(self.alloc))
    }

    /// Puts pending white space at the current node as one text: the same comes of it wherever all characters but the first are.
    fn put_spaces(&mut self) -> Result<(), Refusal>
        requires unfostered { self.old.site.foster ≡ false }
        requires spaces { list_all (λ c. is_space c.ch) self.old.control.pending ≡ true }
        ensures { StateGives result (state_of self.new) (each_of (λ c. perform numbers c.at (character c.ch) put) self.old.control.pending
            (with_control (record self.old.control { pending = [] }) (state_of self.old))) }
    {
        let Some(first) = self.control.pending.first() else {
            return Ok(());
        };
        let at = first.at;
        write(&mut self.control.spaces, &self.control.pending)?;
        self.control.pending.clear();
        prove!(self.site.tree().are_nodes());
        let place = self.site.place_in_current();
        self.site.put_text(&self.control.spaces, place, at)
    }

    /// Characters that were pending, each at its own place: white space is put as it is, others go as anything else in a table.
    fn put_each(&mut self, pending: Vec<Placed>) -> Result<(), Refusal>
        ensures { StateGives result (state_of self.new)
            (if list_all (λ c. is_space c.ch) pending.items then each_of (λ c. perform numbers c.at (character c.ch) put) pending.items (state_of self.old)
            else each_of (λ c. perform numbers c.at (character c.ch) (other_in_table Char)) pending.items (state_of self.old)) }
    {
        let spaces = are_ws(&pending);
        for c in pending {
            self.put_one_pending(spaces, c.ch, c.at)?;
        }
        Ok(())
    }

    fn put_one_pending(&mut self, space: bool, ch: char, at: u64) -> Result<(), Refusal>
        ensures { StateGives result (state_of self.new) (perform numbers at (character ch) (pending_rule space) (state_of self.old)) }
    {
        if space {
            return self.put_char(ch, at);
        }
        self.put_in_table(ch, at)
    }

    /// By the rules of the body, with foster parenting on.
    fn put_in_table(&mut self, ch: char, at: u64) -> Result<(), Refusal>
        ensures { StateGives result (state_of self.new) (perform numbers at (character ch) (other_in_table Char) (state_of self.old)) }
    {
        self.error(Mode::InTable, at)?;
        self.site.set_foster(true);
        self.put_in_body(ch, at)?;
        self.site.set_foster(false);
        Ok(())
    }

    /// Whether a character other than NUL is put at the current node, maybe after the formatting elements, and so is each of a run:
    /// nothing is dropped or foster parented.
    #[inline(always)]
    pub(crate) fn puts_each(&self) -> bool
        ensures { result ≡ puts_each (state_of self.now) }
    {
        let control = &self.control;
        !self.site.fosters()
            && !control.drop_lf
            && matches!(
                control.mode,
                Mode::Text | Mode::InBody | Mode::InCaption | Mode::InCell
            )
    }

    /// Reconstructs the formatting elements before text, but not before the text of an element of text alone.
    #[inline(always)]
    fn begin_text(&mut self, at: u64) -> Result<(), Refusal>
        ensures gives { Gives result self.new.site (before_text at self.old.control.mode self.old.site) }
        ensures rest { state_of self.new ≡ with_site self.new.site (state_of self.old) }
    {
        match self.control.mode {
            Mode::Text => Ok(()),
            _ => self.site.reconstruct(at),
        }
    }

    /// Puts the characters of a run at the current node, after the formatting elements: the same wherever all but the first are.
    #[inline(always)]
    pub(crate) fn put_run(&mut self, run: &str, at: u64) -> Result<(), Refusal>
        ensures gives { (text : List Placed) → IsTextWithReferences text run.now at → Gives result self.new.site (put_all at text (state_of self.old)) }
        ensures rest { state_of self.new ≡ with_site self.new.site (state_of self.old) }
    {
        self.begin_text(at)?;
        prove!(self.site.tree().are_nodes());
        let place = self.site.place_in_current();
        self.site.put_text(run, place, at)
    }

    /// Whether a character other than NUL is kept as pending, and so is each of a run.
    #[inline(always)]
    pub(crate) fn pends_each(&self) -> bool
        ensures { result ≡ pends_each (state_of self.now) }
    {
        !self.control.drop_lf && matches!(self.control.mode, Mode::InTableText)
    }

    /// Whether the rules put a character other than NUL, maybe after the formatting elements, or keep it as pending, and drop no LF.
    #[inline(always)]
    pub(crate) fn takes_char(&self) -> bool
        ensures { result ≡ takes_char (state_of self.now) }
    {
        let control = &self.control;
        !control.drop_lf
            && matches!(
                control.mode,
                Mode::Text | Mode::InBody | Mode::InTableText | Mode::InCaption | Mode::InCell
            )
    }

    /// Puts a character by the rules of such a mode, or keeps it.
    #[inline(always)]
    pub(crate) fn put_one(&mut self, ch: char, at: u64) -> Result<(), Refusal>
        ensures { StateGives result (state_of self.new)
            (perform numbers at (character ch) (char_rule self.old.control.mode) (state_of self.old)) }
    {
        match self.control.mode {
            Mode::Text => self.put_char(ch, at),
            Mode::InTableText => self.pend_char(ch, at),
            _ => self.put_in_body(ch, at),
        }
    }
}
