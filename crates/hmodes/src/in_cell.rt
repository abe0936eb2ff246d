//! The "in cell" insertion mode (HTML Standard, `#parsing-main-intd`).

ghost use Rattle.hmodes.specs.Vocabulary.{IsSound, numbers, ◌▸◌, again, Start, End, Performs, AlwaysPerforms};
ghost use Rattle.hmodes.specs.Vocabulary.{in_cell, close_cell};

use crate::family::Family::*;
use crate::mode::Mode;
use crate::token::token_name;
use crate::token_kind::TokenKind::{self, *};
use crate::tree_construction::{Flow, Ruling, TreeConstruction};
use hadopt::Passing;
use hopen::{Group, Scope};
use htoken::Token;

impl<'q> TreeConstruction<'q> {
    pub(crate) fn in_cell(&mut self, kind: TokenKind, token: &mut Token, at: u64) -> Ruling
        requires { IsSound numbers self.old.site }
        ensures { Performs at (in_cell kind) token.old self.old result token.new self.new }
    {
        match kind {
            End(Cell) => {
                let name = token_name(token);
                if !self.site.in_scope(Scope::Table, name) {
                    return self.ignore(Mode::InCell, at);
                }
                self.close_marked(Mode::InCell, name, at)?;
                self.control.mode = Mode::InRow;
                Ok(Flow::Done)
            }
            Start(Caption | Col | Colgroup | TableSection | Cell | Row) => self.cell_ends(at),
            End(Body | Caption | Col | Colgroup | Html) => self.ignore(Mode::InCell, at),
            End(Table | TableSection | Row) => {
                if !self.site.in_scope(Scope::Table, token_name(token)) {
                    return self.ignore(Mode::InCell, at);
                }
                self.cell_ends(at)
            }
            _ => self.in_body(kind, token, at),
        }
    }

    /// Closes a cell that no end tag closed (`#close-the-cell`).
    fn cell_ends(&mut self, at: u64) -> Ruling
        ensures { AlwaysPerforms at (close_cell ▸ again) self.old result self.new }
    {
        self.site.pop_past(Passing::Implied(None));
        let is_cell = self.site.current_is_of(Group::Cell);
        self.error_unless(is_cell, Mode::InCell, at)?;
        self.site.pop_to_group(Group::Cell);
        self.site.clear_to_marker();
        self.control.mode = Mode::InRow;
        Ok(Flow::Again)
    }
}
