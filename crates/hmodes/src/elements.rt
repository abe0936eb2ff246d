//! Elements of the body: blocks, items, headings and forms, formatting and other elements among text (HTML Standard, `#parsing-main-inbody`).

ghost use Rattle.hmodes.specs.Vocabulary.{block, close_block, close_item, end_item, IsSound, numbers, StateGives, perform, state_of, token_of, Performs, AlwaysPerforms, Does, in_body, Start, End, ◌▸◌, when, unless, choose, error, insert, implied, implied_except, pop_to, has_in, item_is_near, current_is, InBody};
ghost use Rattle.hmodes.specs.Vocabulary.{reconstruct, formatting, void_in_text, push_to_list, adopt, adopt_listed, name_is_listed};
ghost use Rattle.hmodes.specs.declared.family.Family.TheVariants as family;
ghost use Rattle.hopen.specs.declared.scope.Scope.TheVariants as scope;
ghost use Rattle.names.specs.declared.tag.Tag.TheVariants as tag;

use crate::mode::Mode;
use crate::token::{rename, share_attrs, token_name};
use crate::tree_construction::{Flow, Ruling, TreeConstruction, done};
use hadopt::Passing;
use hopen::{Group, Scope};
use htoken::Token;
use names::{Refusal, Tag};

impl<'q> TreeConstruction<'q> {
    /// The start tag of a block or a p.
    pub(crate) fn block(&mut self, token: &mut Token, at: u64) -> Ruling
        ensures { Performs at block token.old self.old result token.new self.new }
    {
        self.close_p_in_scope(at)?;
        done(self.insert(token, at))
    }

    /// The start tag of a heading. A heading that is the current node is closed.
    pub(crate) fn heading(&mut self, token: &mut Token, at: u64) -> Ruling
        ensures { Performs at (in_body (Start family.Heading)) token.old self.old result token.new self.new }
    {
        self.close_p_in_scope(at)?;
        if self.site.current_is_of(Group::Heading) {
            self.error(Mode::InBody, at)?;
            self.site.pop();
        }
        done(self.insert(token, at))
    }

    /// The start tags pre and listing.
    pub(crate) fn pre(&mut self, token: &mut Token, at: u64) -> Ruling
        ensures { Performs at (in_body (Start family.Pre)) token.old self.old result token.new self.new }
    {
        self.close_p_in_scope(at)?;
        self.insert(token, at)?;
        self.control.drop_lf = true;
        Ok(Flow::Done)
    }

    pub(crate) fn form(&mut self, token: &mut Token, at: u64) -> Ruling
        ensures { Performs at (in_body (Start family.Form)) token.old self.old result token.new self.new }
    {
        if self.control.form.is_some() {
            return self.ignore(Mode::InBody, at);
        }
        self.close_p_in_scope(at)?;
        self.insert(token, at)?;
        self.control.form = Some(self.current_node());
        Ok(Flow::Done)
    }

    #[inline(always)]
    fn close_li(&mut self, at: u64) -> Result<(), Refusal>
        ensures { Does at (when (item_is_near tag.Li) (close_item tag.Li)) self.old result self.new }
    {
        let li = Tag::Li.number();
        if self.site.item_is_near(li) {
            return self.close_item(li, at);
        }
        Ok(())
    }

    pub(crate) fn li(&mut self, token: &mut Token, at: u64) -> Ruling
        ensures { Performs at (in_body (Start family.Li)) token.old self.old result token.new self.new }
    {
        self.close_li(at)?;
        self.block(token, at)
    }

    fn close_dt(&mut self, at: u64) -> Result<(), Refusal>
        ensures { Does at (when (item_is_near tag.Dt) (close_item tag.Dt)) self.old result self.new }
    {
        let dt = Tag::Dt.number();
        if self.site.item_is_near(dt) {
            return self.close_item(dt, at);
        }
        Ok(())
    }

    fn close_dd(&mut self, at: u64) -> Result<(), Refusal>
        ensures { Does at (choose (item_is_near tag.Dd) (close_item tag.Dd) (when (item_is_near tag.Dt) (close_item tag.Dt))) self.old result self.new }
    {
        let dd = Tag::Dd.number();
        if self.site.item_is_near(dd) {
            return self.close_item(dd, at);
        }
        self.close_dt(at)
    }

    pub(crate) fn dd(&mut self, token: &mut Token, at: u64) -> Ruling
        ensures { Performs at (in_body (Start family.Dd)) token.old self.old result token.new self.new }
    {
        self.close_dd(at)?;
        self.block(token, at)
    }

    fn close_button(&mut self, at: u64) -> Result<(), Refusal>
        ensures { Does at (when (has_in scope.Default tag.Button) (error InBody ▸ implied ▸ pop_to tag.Button)) self.old result self.new }
    {
        let button = Tag::Button.number();
        if !self.site.in_scope(Scope::Default, button) {
            return Ok(());
        }
        self.error(Mode::InBody, at)?;
        self.site.pop_past(Passing::Implied(None));
        self.site.pop_to(button);
        Ok(())
    }

    pub(crate) fn button(&mut self, token: &mut Token, at: u64) -> Ruling
        ensures { Performs at (in_body (Start family.Button)) token.old self.old result token.new self.new }
    {
        self.close_button(at)?;
        self.other_start(token, at)
    }

    pub(crate) fn close_block(&mut self, token: &Token, at: u64) -> Ruling
        ensures { Performs at close_block token.now self.old result token.now self.new }
    {
        let name = token_name(token);
        if !self.site.in_scope(Scope::Default, name) {
            return self.ignore(Mode::InBody, at);
        }
        self.site.pop_past(Passing::Implied(None));
        done(self.pop_to(Mode::InBody, name, at))
    }

    pub(crate) fn end_item(&mut self, scope: Scope, token: &Token, at: u64) -> Ruling
        ensures { Performs at (end_item scope) token.now self.old result token.now self.new }
    {
        let name = token_name(token);
        if !self.site.in_scope(scope, name) {
            return self.ignore(Mode::InBody, at);
        }
        done(self.close_item(name, at))
    }

    /// The end tag form. The form pointer's element is closed.
    pub(crate) fn end_form(&mut self, at: u64) -> Ruling
        ensures { AlwaysPerforms at (in_body (End family.Form)) self.old result self.new }
    {
        let Some(form) = self.control.form.take() else {
            return self.ignore(Mode::InBody, at);
        };
        if !self.site.node_in_scope(form) {
            return self.ignore(Mode::InBody, at);
        }
        self.site.pop_past(Passing::Implied(None));
        let is_current = self.site.is_current(form);
        self.error_unless(is_current, Mode::InBody, at)?;
        self.site.leave(form);
        Ok(Flow::Done)
    }

    /// The end tag p, which closes an empty one where none is in button scope.
    pub(crate) fn end_p(&mut self, at: u64) -> Ruling
        ensures { AlwaysPerforms at (in_body (End family.P)) self.old result self.new }
    {
        let p = Tag::P.number();
        if !self.site.in_scope(Scope::Button, p) {
            self.error(Mode::InBody, at)?;
            self.insert_named(p, at)?;
        }
        done(self.site.close_p(at))
    }

    /// The end tag of a heading. The nearest heading is closed, which should have this name.
    pub(crate) fn end_heading(&mut self, token: &Token, at: u64) -> Ruling
        ensures { Performs at (in_body (End family.Heading)) token.now self.old result token.now self.new }
    {
        if !self.site.group_in_scope(Scope::Default, Group::Heading) {
            return self.ignore(Mode::InBody, at);
        }
        self.site.pop_past(Passing::Implied(None));
        let is_current = self.site.current_is(token_name(token));
        self.error_unless(is_current, Mode::InBody, at)?;
        self.site.pop_to_group(Group::Heading);
        Ok(Flow::Done)
    }

    pub(crate) fn insert_formatting(&mut self, token: &mut Token, at: u64) -> Result<(), Refusal>
        ensures { StateGives result (state_of self.new) (perform numbers at (token_of token.old) (insert ▸ push_to_list) (state_of self.old)) }
    {
        let name = token_name(token);
        let attrs = share_attrs(self.alloc, token)?;
        let place = self.site.place();
        self.site.insert_formatting(name, attrs, place, at)?;
        Ok(())
    }

    #[inline(always)]
    pub(crate) fn formatting(&mut self, token: &mut Token, at: u64) -> Ruling
        ensures { Performs at formatting token.old self.old result token.new self.new }
    {
        self.site.reconstruct(at)?;
        done(self.insert_formatting(token, at))
    }

    /// The adoption agency runs for a listed element of the name, which leaves the stack and the list then.
    fn close_listed(&mut self, token: &Token, at: u64) -> Result<(), Refusal>
        requires { IsSound numbers self.old.site }
        ensures { StateGives result (state_of self.new)
            (perform numbers at (token_of token.now) (when name_is_listed (error InBody ▸ adopt_listed)) (state_of self.old)) }
    {
        let name = token_name(token);
        let Some(node) = self.site.find(name) else {
            return Ok(());
        };
        self.error(Mode::InBody, at)?;
        self.site.adopt(name, at)?;
        self.site.leave(node);
        self.site.remove_entry(node);
        Ok(())
    }

    pub(crate) fn anchor(&mut self, token: &mut Token, at: u64) -> Ruling
        requires { IsSound numbers self.old.site }
        ensures { Performs at (in_body (Start family.A)) token.old self.old result token.new self.new }
    {
        self.close_listed(token, at)?;
        self.formatting(token, at)
    }

    fn close_nobr(&mut self, token: &Token, at: u64) -> Result<(), Refusal>
        requires { IsSound numbers self.old.site }
        ensures { StateGives result (state_of self.new)
            (perform numbers at (token_of token.now) (when (has_in scope.Default tag.Nobr) (error InBody ▸ adopt ▸ reconstruct)) (state_of self.old)) }
    {
        let name = token_name(token);
        if !self.site.in_scope(Scope::Default, Tag::Nobr.number()) {
            return Ok(());
        }
        self.error(Mode::InBody, at)?;
        self.site.adopt(name, at)?;
        self.site.reconstruct(at)
    }

    pub(crate) fn nobr(&mut self, token: &mut Token, at: u64) -> Ruling
        requires { IsSound numbers self.old.site }
        ensures { Performs at (in_body (Start family.Nobr)) token.old self.old result token.new self.new }
    {
        self.site.reconstruct(at)?;
        self.close_nobr(token, at)?;
        done(self.insert_formatting(token, at))
    }

    pub(crate) fn adopt(&mut self, token: &Token, at: u64) -> Ruling
        requires { IsSound numbers self.old.site }
        ensures { Performs at adopt token.now self.old result token.now self.new }
    {
        done(self.site.adopt(token_name(token), at))
    }

    /// The start tags applet, marquee and object.
    pub(crate) fn object(&mut self, token: &mut Token, at: u64) -> Ruling
        ensures { Performs at (in_body (Start family.Object)) token.old self.old result token.new self.new }
    {
        self.site.reconstruct(at)?;
        self.insert(token, at)?;
        done(self.site.marker())
    }

    /// The end tags applet, marquee and object.
    pub(crate) fn end_object(&mut self, token: &Token, at: u64) -> Ruling
        ensures { Performs at (in_body (End family.Object)) token.now self.old result token.now self.new }
    {
        let name = token_name(token);
        if !self.site.in_scope(Scope::Default, name) {
            return self.ignore(Mode::InBody, at);
        }
        done(self.close_marked(Mode::InBody, name, at))
    }

    /// The start tag table. An open p is closed before it, but not in quirks mode.
    pub(crate) fn table(&mut self, token: &mut Token, at: u64) -> Ruling
        ensures { Performs at (in_body (Start family.Table)) token.old self.old result token.new self.new }
    {
        if !self.control.quirks {
            self.close_p_in_scope(at)?;
        }
        self.insert_and_go(Mode::InTable, token, at)
    }

    pub(crate) fn end_br(&mut self, at: u64) -> Ruling
        ensures { AlwaysPerforms at (in_body (End family.Br)) self.old result self.new }
    {
        self.error(Mode::InBody, at)?;
        self.site.reconstruct(at)?;
        self.insert_named(Tag::Br.number(), at)?;
        self.site.pop();
        Ok(Flow::Done)
    }

    pub(crate) fn void_in_text(&mut self, token: &mut Token, at: u64) -> Ruling
        ensures { Performs at void_in_text token.old self.old result token.new self.new }
    {
        self.site.reconstruct(at)?;
        done(self.void(token, at))
    }

    pub(crate) fn hr(&mut self, token: &mut Token, at: u64) -> Ruling
        ensures { Performs at (in_body (Start family.Hr)) token.old self.old result token.new self.new }
    {
        self.close_p_in_scope(at)?;
        done(self.void(token, at))
    }

    /// The start tag image, which is reprocessed as img.
    pub(crate) fn image(&mut self, token: &mut Token, at: u64) -> Ruling
        ensures { Performs at (in_body (Start family.Image)) token.old self.old result token.new self.new }
    {
        self.error(Mode::InBody, at)?;
        rename(token, Tag::Img.number());
        Ok(Flow::Again)
    }

    pub(crate) fn textarea(&mut self, token: &mut Token, at: u64) -> Ruling
        ensures { Performs at (in_body (Start family.Textarea)) token.old self.old result token.new self.new }
    {
        self.raw(token, at)?;
        self.control.drop_lf = true;
        Ok(Flow::Done)
    }

    pub(crate) fn xmp(&mut self, token: &mut Token, at: u64) -> Ruling
        ensures { Performs at (in_body (Start family.Xmp)) token.old self.old result token.new self.new }
    {
        self.close_p_in_scope(at)?;
        self.site.reconstruct(at)?;
        done(self.raw(token, at))
    }

    /// The start tags rb and rtc. Implied end tags are generated in a ruby, which should be the current node then.
    pub(crate) fn rb(&mut self, token: &mut Token, at: u64) -> Ruling
        ensures { Performs at (in_body (Start family.Rb)) token.old self.old result token.new self.new }
    {
        let ruby = Tag::Ruby.number();
        if self.site.in_scope(Scope::Default, ruby) {
            self.site.pop_past(Passing::Implied(None));
        }
        let in_place = self.site.current_is(ruby);
        self.error_unless(in_place, Mode::InBody, at)?;
        done(self.insert(token, at))
    }

    /// Implied end tags but rtc in a ruby; it or an rtc should be the current node then.
    fn in_ruby_text(&mut self, at: u64) -> Result<(), Refusal>
        ensures { Does at (when (has_in scope.Default tag.Ruby) (implied_except tag.Rtc)
            ▸ unless (current_is tag.Rtc) (unless (current_is tag.Ruby) (error InBody)))
            self.old result self.new }
    {
        let ruby = Tag::Ruby.number();
        let rtc = Tag::Rtc.number();
        if self.site.in_scope(Scope::Default, ruby) {
            self.site.pop_past(Passing::Implied(Some(rtc)));
        }
        let in_place = self.site.current_is(rtc) || self.site.current_is(ruby);
        self.error_unless(in_place, Mode::InBody, at)
    }

    pub(crate) fn rp(&mut self, token: &mut Token, at: u64) -> Ruling
        ensures { Performs at (in_body (Start family.Rp)) token.old self.old result token.new self.new }
    {
        self.in_ruby_text(at)?;
        done(self.insert(token, at))
    }
}
