//! The "in body" and "text" insertion modes (HTML Standard, `#parsing-main-inbody` and `#parsing-main-incdata`).

ghost use Rattle.hmodes.specs.Vocabulary.{in_body, text, body_ends, character_in_body, End, ◌▸◌, choose, error, to, insert, reconstruct, has_in, InBody, AfterBody, IsSound, numbers, ended, StateGives, perform, character, state_of, Start, other_end, Performs, AlwaysPerforms, Does};
ghost use Rattle.hmodes.specs.declared.family.Family.TheVariants as family;
ghost use Rattle.hopen.specs.declared.scope.Scope.TheVariants as scope;
ghost use Rattle.names.specs.declared.tag.Tag.TheVariants as tag;

use crate::family::Family::{self, *};
use crate::mode::Mode;
use crate::token::{token_char, token_name};
use crate::token_kind::TokenKind::{self, *};
use crate::tree_construction::{Flow, Ruling, TreeConstruction, done};
use hopen::Scope;
use htoken::Token;
use names::{Refusal, Tag};

impl<'q> TreeConstruction<'q> {
    #[inline(always)]
    pub(crate) fn in_body(&mut self, kind: TokenKind, token: &mut Token, at: u64) -> Ruling
        requires { IsSound numbers self.old.site }
        ensures { Performs at (in_body kind) token.old self.old result token.new self.new }
    {
        match kind {
            Nul | Doctype => self.ignore(Mode::InBody, at),
            Ws | Char => self.character_in_body(token, at),
            Comment => self.insert_comment(token, at),
            Start(family) => self.start_in_body(family, token, at),
            End(family) => self.end_in_body(family, token, at),
            Eof => done(self.check_open(at)),
        }
    }

    #[inline(never)]
    fn start_in_body(&mut self, family: Family, token: &mut Token, at: u64) -> Ruling
        requires { IsSound numbers self.old.site }
        ensures { Performs at (in_body (Start family)) token.old self.old result token.new self.new }
    {
        match family {
            Html => self.html_again(token, at),
            Base | HeadVoid | Noframes | Script | Style | Title => {
                self.in_head(Start(family), token, at)
            }
            Body => self.body_again(token, at),
            Block | P | Plaintext => self.block(token, at),
            Heading => self.heading(token, at),
            Pre => self.pre(token, at),
            Form => self.form(token, at),
            Li => self.li(token, at),
            Dd => self.dd(token, at),
            Button => self.button(token, at),
            A => self.anchor(token, at),
            Formatting => self.formatting(token, at),
            Nobr => self.nobr(token, at),
            Object => self.object(token, at),
            Table => self.table(token, at),
            PhrasingVoid | Br | Input => self.void_in_text(token, at),
            MediaVoid => done(self.void(token, at)),
            Hr => self.hr(token, at),
            Image => self.image(token, at),
            Textarea => self.textarea(token, at),
            Xmp => self.xmp(token, at),
            Iframe => done(self.raw(token, at)),
            Rb => self.rb(token, at),
            Rp => self.rp(token, at),
            Caption | Col | Colgroup | Head | TableSection | Cell | Row => {
                self.ignore(Mode::InBody, at)
            }
            _ => self.other_start(token, at),
        }
    }

    #[inline(never)]
    fn end_in_body(&mut self, family: Family, token: &mut Token, at: u64) -> Ruling
        requires { IsSound numbers self.old.site }
        ensures { Performs at (in_body (End family)) token.old self.old result token.new self.new }
    {
        match family {
            Body => self.end_body(Flow::Done, at),
            Html => self.end_body(Flow::Again, at),
            Block | Button | Pre => self.close_block(token, at),
            Form => self.end_form(at),
            P => self.end_p(at),
            Li => self.end_item(Scope::ListItem, token, at),
            Dd => self.end_item(Scope::Default, token, at),
            Heading => self.end_heading(token, at),
            A | Formatting | Nobr => self.adopt(token, at),
            Object => self.end_object(token, at),
            Br => self.end_br(at),
            _ => self.other_end(token, at),
        }
    }

    /// A character other than NUL.
    pub(crate) fn character_in_body(&mut self, token: &Token, at: u64) -> Ruling
        ensures { Performs at character_in_body token.now self.old result token.now self.new }
    {
        done(self.put_in_body(token_char(token), at))
    }

    /// The character, after the formatting elements.
    #[inline(always)]
    pub(crate) fn put_in_body(&mut self, ch: char, at: u64) -> Result<(), Refusal>
        ensures { StateGives result (state_of self.new) (perform numbers at (character ch) character_in_body (state_of self.old)) }
    {
        self.site.reconstruct(at)?;
        self.put_char(ch, at)
    }

    /// A parse error if an element is open that may not be at the end of the body.
    pub(crate) fn check_open(&mut self, at: u64) -> Result<(), Refusal>
        ensures { Does at body_ends self.old result self.new }
    {
        let may_end = self.site.all_may_stay_open();
        self.error_unless(may_end, Mode::InBody, at)
    }

    /// The start tag body where it is not the first.
    pub(crate) fn body_again(&mut self, token: &mut Token, at: u64) -> Ruling
        ensures { Performs at (in_body (Start family.Body)) token.old self.old result token.new self.new }
    {
        self.error(Mode::InBody, at)?;
        let second = self.site.from_top(1);
        if !second.is_some_and(|open_node| open_node.name == Tag::Body.number()) {
            return Ok(Flow::Done);
        }
        done(self.add_missing(1, token))
    }

    /// The end tags body and html, of which the latter is reprocessed then.
    pub(crate) fn end_body(&mut self, flow: Flow, at: u64) -> Ruling
        ensures { AlwaysPerforms at (choose (has_in scope.Default tag.Body) (body_ends ▸ to AfterBody ▸ ended flow) (error InBody)) self.old result self.new }
    {
        if !self.site.in_scope(Scope::Default, Tag::Body.number()) {
            return self.ignore(Mode::InBody, at);
        }
        self.check_open(at)?;
        self.control.mode = Mode::AfterBody;
        Ok(flow)
    }

    pub(crate) fn other_start(&mut self, token: &mut Token, at: u64) -> Ruling
        ensures { Performs at (reconstruct ▸ insert) token.old self.old result token.new self.new }
    {
        self.site.reconstruct(at)?;
        done(self.insert(token, at))
    }

    pub(crate) fn other_end(&mut self, token: &Token, at: u64) -> Ruling
        ensures { Performs at other_end token.now self.old result token.now self.new }
    {
        done(self.site.other_end(token_name(token), at))
    }

    pub(crate) fn text(&mut self, kind: TokenKind, token: &mut Token, at: u64) -> Ruling
        ensures { Performs at (text kind) token.old self.old result token.new self.new }
    {
        match kind {
            Nul | Ws | Char => self.put(token, at),
            Eof => {
                self.error(Mode::Text, at)?;
                self.site.pop();
                self.control.mode = self.control.saved;
                Ok(Flow::Again)
            }
            End(_) => self.pop_and_go(self.control.saved, Flow::Done),
            _ => self.ignore(Mode::Text, at),
        }
    }
}
