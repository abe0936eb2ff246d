//! The insertion modes of captions and column groups (HTML Standard, `#parsing-main-incaption` and `#parsing-main-incolgroup`).

ghost use Rattle.hmodes.specs.Vocabulary.{IsSound, numbers, Start, End, InTable, Performs, AlwaysPerforms, ended};
ghost use Rattle.hmodes.specs.Vocabulary.{in_caption, close_caption, in_column_group};

use crate::family::Family::*;
use crate::mode::Mode;
use crate::token_kind::TokenKind::{self, *};
use crate::tree_construction::{Flow, Ruling, TreeConstruction, done};
use hopen::Scope;
use htoken::Token;
use names::Tag;

impl<'q> TreeConstruction<'q> {
    pub(crate) fn in_caption(&mut self, kind: TokenKind, token: &mut Token, at: u64) -> Ruling
        requires { IsSound numbers self.old.site }
        ensures { Performs at (in_caption kind) token.old self.old result token.new self.new }
    {
        match kind {
            End(Caption) => self.close_caption(Flow::Done, at),
            End(Table) | Start(Caption | Col | Colgroup | TableSection | Cell | Row) => {
                self.close_caption(Flow::Again, at)
            }
            End(Body | Col | Colgroup | Html | TableSection | Cell | Row) => {
                self.ignore(Mode::InCaption, at)
            }
            _ => self.in_body(kind, token, at),
        }
    }

    /// The caption is closed, by its end tag or by a token that is reprocessed then.
    pub(crate) fn close_caption(&mut self, flow: Flow, at: u64) -> Ruling
        ensures { AlwaysPerforms at (close_caption (ended flow)) self.old result self.new }
    {
        let caption = Tag::Caption.number();
        if !self.site.in_scope(Scope::Table, caption) {
            return self.ignore(Mode::InCaption, at);
        }
        self.close_marked(Mode::InCaption, caption, at)?;
        self.control.mode = Mode::InTable;
        Ok(flow)
    }

    pub(crate) fn in_column_group(&mut self, kind: TokenKind, token: &mut Token, at: u64) -> Ruling
        ensures { Performs at (in_column_group kind) token.old self.old result token.new self.new }
    {
        match kind {
            Ws => self.put(token, at),
            Comment => self.insert_comment(token, at),
            Start(Html) => self.html_again(token, at),
            Start(Col) => done(self.void(token, at)),
            End(Colgroup) => self.pop_and_go(Mode::InTable, Flow::Done),
            Doctype | End(Col | Template) => self.ignore(Mode::InColumnGroup, at),
            Eof => done(self.check_open(at)),
            _ => self.pop_and_go(Mode::InTable, Flow::Again),
        }
    }
}
