//! The "in table" insertion mode (HTML Standard, `#parsing-main-intable`).

ghost use Rattle.std.specs.Prelude.{◌≡◌};
ghost use Rattle.hmodes.specs.Vocabulary.{DoneOf, in_table, character_in_table, IsSound, numbers, performed, state_of, ◌▸◌, unless, error, other_in_table, Start, End, to, insert, pop, pop_to, form_pointer, form_is_set, InTable, reset, clear_to_table, Performs};
ghost use Rattle.hmodes.specs.declared.family.Family.TheVariants as family;
ghost use Rattle.names.specs.declared.tag.Tag.TheVariants as tag;

use crate::family::Family::{self, *};
use crate::mode::Mode;
use crate::token::is_hidden;
use crate::token_kind::TokenKind::{self, *};
use crate::tree_construction::{Flow, Ruling, TreeConstruction, done};
use hadopt::Passing;
use hopen::Scope;
use htoken::Token;
use names::Tag;

impl<'q> TreeConstruction<'q> {
    pub(crate) fn in_table(&mut self, kind: TokenKind, token: &mut Token, at: u64) -> Ruling
        requires { IsSound numbers self.old.site }
        ensures { Performs at (in_table kind) token.old self.old result token.new self.new }
    {
        match kind {
            Nul | Ws | Char => self.character_in_table(kind, token, at),
            Comment => self.insert_comment(token, at),
            Doctype => self.ignore(Mode::InTable, at),
            Start(family) => self.start_in_table(family, token, at),
            End(family) => self.end_in_table(family, token, at),
            Eof => done(self.check_open(at)),
        }
    }

    fn start_in_table(&mut self, family: Family, token: &mut Token, at: u64) -> Ruling
        requires { IsSound numbers self.old.site }
        ensures { Performs at (in_table (Start family)) token.old self.old result token.new self.new }
    {
        match family {
            Caption => {
                self.site.pop_past(Passing::Table);
                self.site.marker()?;
                self.insert_and_go(Mode::InCaption, token, at)
            }
            Colgroup => self.insert_in_table(Mode::InColumnGroup, token, at),
            Col => {
                self.site.pop_past(Passing::Table);
                self.insert_named(Tag::Colgroup.number(), at)?;
                self.control.mode = Mode::InColumnGroup;
                Ok(Flow::Again)
            }
            TableSection => self.insert_in_table(Mode::InTableBody, token, at),
            Cell | Row => {
                self.site.pop_past(Passing::Table);
                self.insert_named(Tag::Tbody.number(), at)?;
                self.control.mode = Mode::InTableBody;
                Ok(Flow::Again)
            }
            Table => {
                self.error(Mode::InTable, at)?;
                if !self.site.in_scope(Scope::Table, Tag::Table.number()) {
                    return Ok(Flow::Done);
                }
                self.close_table();
                Ok(Flow::Again)
            }
            Style | Script => self.in_head(Start(family), token, at),
            Input => self.input_in_table(token, at),
            Form => self.form_in_table(token, at),
            _ => self.other_in_table(Start(family), token, at),
        }
    }

    fn end_in_table(&mut self, family: Family, token: &mut Token, at: u64) -> Ruling
        requires { IsSound numbers self.old.site }
        ensures { Performs at (in_table (End family)) token.old self.old result token.new self.new }
    {
        match family {
            Table => {
                if !self.site.in_scope(Scope::Table, Tag::Table.number()) {
                    return self.ignore(Mode::InTable, at);
                }
                self.close_table();
                Ok(Flow::Done)
            }
            Body | Caption | Col | Colgroup | Html | TableSection | Cell | Row | Template => {
                self.ignore(Mode::InTable, at)
            }
            _ => self.other_in_table(End(family), token, at),
        }
    }

    /// Anything else in a table: by the rules of the body, with foster parenting on (`#foster-parent`).
    pub(crate) fn other_in_table(&mut self, kind: TokenKind, token: &mut Token, at: u64) -> Ruling
        requires { IsSound numbers self.old.site }
        ensures { Performs at (other_in_table kind) token.old self.old result token.new self.new }
    {
        self.error(Mode::InTable, at)?;
        self.site.set_foster(true);
        let flow = self.in_body(kind, token, at)?;
        self.site.set_foster(false);
        Ok(flow)
    }

    fn character_in_table(&mut self, kind: TokenKind, token: &mut Token, at: u64) -> Ruling
        requires { IsSound numbers self.old.site }
        ensures { Performs at (character_in_table kind) token.old self.old result token.new self.new }
    {
        if !self.site.current_fosters() {
            return self.other_in_table(kind, token, at);
        }
        self.control.pending.clear();
        self.control.saved = self.control.mode;
        self.control.mode = Mode::InTableText;
        Ok(Flow::Again)
    }

    /// A part of a table, whose content goes by another mode.
    fn insert_in_table(&mut self, mode: Mode, token: &mut Token, at: u64) -> Ruling
        ensures { Performs at (clear_to_table ▸ insert ▸ to mode) token.old self.old result token.new self.new }
    {
        self.site.pop_past(Passing::Table);
        self.insert_and_go(mode, token, at)
    }

    /// The nearest table is closed, and the mode is the one that fits then (`#reset-the-insertion-mode-appropriately`).
    fn close_table(&mut self)
        ensures { performed 0 (pop_to tag.Table ▸ reset) (state_of self.old) ≡ DoneOf (state_of self.new) }
    {
        self.site.pop_to(Tag::Table.number());
        self.control.mode = self.reset_mode();
    }

    pub(crate) fn input_in_table(&mut self, token: &mut Token, at: u64) -> Ruling
        requires { IsSound numbers self.old.site }
        ensures { Performs at (in_table (Start family.Input)) token.old self.old result token.new self.new }
    {
        if !is_hidden(token) {
            return self.other_in_table(Start(Input), token, at);
        }
        self.error(Mode::InTable, at)?;
        done(self.void(token, at))
    }

    pub(crate) fn form_in_table(&mut self, token: &mut Token, at: u64) -> Ruling
        ensures { Performs at (error InTable ▸ unless form_is_set (insert ▸ form_pointer ▸ pop)) token.old self.old result token.new self.new }
    {
        self.error(Mode::InTable, at)?;
        if self.control.form.is_some() {
            return Ok(Flow::Done);
        }
        self.insert(token, at)?;
        self.control.form = Some(self.current_node());
        self.site.pop();
        Ok(Flow::Done)
    }
}
