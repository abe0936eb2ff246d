//! The "in row" insertion mode (HTML Standard, `#parsing-main-intr`).

ghost use Rattle.hmodes.specs.Vocabulary.{in_table, IsSound, numbers, Start, End, insert, pop, Performs, AlwaysPerforms, ended};
ghost use Rattle.hmodes.specs.Vocabulary.{in_row, close_row};

use crate::family::Family::*;
use crate::mode::Mode;
use crate::token::token_name;
use crate::token_kind::TokenKind::{self, *};
use crate::tree_construction::{Flow, Ruling, TreeConstruction, done};
use hadopt::Passing;
use hopen::Scope;
use htoken::Token;
use names::Tag;

impl<'q> TreeConstruction<'q> {
    pub(crate) fn in_row(&mut self, kind: TokenKind, token: &mut Token, at: u64) -> Ruling
        requires { IsSound numbers self.old.site }
        ensures { Performs at (in_row kind) token.old self.old result token.new self.new }
    {
        match kind {
            Start(Cell) => {
                self.site.pop_past(Passing::Row);
                self.insert(token, at)?;
                self.control.mode = Mode::InCell;
                done(self.site.marker())
            }
            End(Row) => self.close_row(Flow::Done, at),
            Start(Caption | Col | Colgroup | TableSection | Row) => self.close_row(Flow::Again, at),
            End(Table) => self.close_row(Flow::Again, at),
            End(TableSection) => {
                if !self.site.in_scope(Scope::Table, token_name(token)) {
                    return self.ignore(Mode::InRow, at);
                }
                if !self.site.in_scope(Scope::Table, Tag::Tr.number()) {
                    return Ok(Flow::Done);
                }
                self.site.pop_past(Passing::Row);
                self.site.pop();
                self.control.mode = Mode::InTableBody;
                Ok(Flow::Again)
            }
            End(Body | Caption | Col | Colgroup | Html | Cell) => self.ignore(Mode::InRow, at),
            _ => self.in_table(kind, token, at),
        }
    }

    /// The row is closed, by its end tag `</tr>` or by a token that is reprocessed then.
    pub(crate) fn close_row(&mut self, flow: Flow, at: u64) -> Ruling
        ensures { AlwaysPerforms at (close_row (ended flow)) self.old result self.new }
    {
        if !self.site.in_scope(Scope::Table, Tag::Tr.number()) {
            return self.ignore(Mode::InRow, at);
        }
        self.site.pop_past(Passing::Row);
        self.pop_and_go(Mode::InTableBody, flow)
    }
}
