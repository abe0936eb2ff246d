//! The "in table body" insertion mode (HTML Standard, `#parsing-main-intbody`).

ghost use Rattle.hmodes.specs.Vocabulary.{in_table, IsSound, numbers, error, Start, End, pop, InTable, Performs, AlwaysPerforms};
ghost use Rattle.hmodes.specs.Vocabulary.{in_table_body, section_ends};
ghost use Rattle.hmodes.specs.declared.family.Family.TheVariants as family;

use crate::family::Family::*;
use crate::mode::Mode;
use crate::token::token_name;
use crate::token_kind::TokenKind::{self, *};
use crate::tree_construction::{Flow, Ruling, TreeConstruction};
use hadopt::Passing;
use hopen::{Group, Scope};
use htoken::Token;
use names::Tag;

impl<'q> TreeConstruction<'q> {
    pub(crate) fn in_table_body(&mut self, kind: TokenKind, token: &mut Token, at: u64) -> Ruling
        requires { IsSound numbers self.old.site }
        ensures { Performs at (in_table_body kind) token.old self.old result token.new self.new }
    {
        match kind {
            Start(Row) => {
                self.site.pop_past(Passing::Body);
                self.insert_and_go(Mode::InRow, token, at)
            }
            Start(Cell) => self.row_unwritten(at),
            End(TableSection) => self.end_section(token, at),
            End(Table) | Start(Caption | Col | Colgroup | TableSection) => self.section_ends(at),
            End(Body | Caption | Col | Colgroup | Html | Cell | Row) => {
                self.ignore(Mode::InTableBody, at)
            }
            _ => self.in_table(kind, token, at),
        }
    }

    /// A tr that no tag began.
    fn row_unwritten(&mut self, at: u64) -> Ruling
        ensures { AlwaysPerforms at (in_table_body (Start family.Cell)) self.old result self.new }
    {
        self.error(Mode::InTableBody, at)?;
        self.site.pop_past(Passing::Body);
        self.insert_named(Tag::Tr.number(), at)?;
        self.control.mode = Mode::InRow;
        Ok(Flow::Again)
    }

    /// The end tag of a table body.
    fn end_section(&mut self, token: &Token, at: u64) -> Ruling
        ensures { Performs at (in_table_body (End family.TableSection)) token.now self.old result token.now self.new }
    {
        if !self.site.in_scope(Scope::Table, token_name(token)) {
            return self.ignore(Mode::InTableBody, at);
        }
        self.site.pop_past(Passing::Body);
        self.pop_and_go(Mode::InTable, Flow::Done)
    }

    /// A table body that no end tag closed.
    pub(crate) fn section_ends(&mut self, at: u64) -> Ruling
        ensures { AlwaysPerforms at section_ends self.old result self.new }
    {
        if !self.site.group_in_scope(Scope::Table, Group::TableSection) {
            return self.ignore(Mode::InTableBody, at);
        }
        self.site.pop_past(Passing::Body);
        self.site.pop();
        self.control.mode = Mode::InTable;
        Ok(Flow::Again)
    }
}
