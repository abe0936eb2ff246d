//! Tags without attributes that stand whole in one run of the input (HTML Standard, `#tag-open-state` to `#tag-name-state`).

ghost use Rattle.std.specs.Prelude.{◌≡◌, ◌<◌, IfOk, length, slice_index};
ghost use Rattle.htoken.specs.Vocabulary.{BeginsNamed, FeedsRun, gives_item, Grows, IsBareName, IsTagName, IsCut};

use crate::clean_run::Run;
use crate::hand::give_tag;
use crate::sink::TokenSink;
use crate::state::State;
use crate::token::Token;
use crate::tokenizer::{Taken, Tokenizer};
use htag::{bare_name, is_bare, tag_name};
use names::{Names, RawKind};
use std::alloc::AllocError;

impl<'t> Tokenizer<'t> {
    /// Tag open state (`#tag-open-state`): takes the rest of a tag without attributes, if the run begins with a whole one, or the name of another
    /// start tag. Returns the length, or 0.
    #[inline(always)]
    pub(crate) fn take_tag_open<S: TokenSink>(
        &mut self,
        names: &mut Names,
        run: &Run,
        sink: &mut S,
    ) -> Taken
        requires less { self.old.state ≡ State.TagOpen }
        requires some { 0 < length run.now.text.now }
        ensures takes { FeedsRun (gives_item S.gives S.gives_token) self.old names.old run.now.at run.now.text.now names.new sink.old result sink.new self.new }
        ensures cut { IfOk result (λ count. IsCut count run.now.text.now) }
        ensures grows { Grows names.old names.new }
    {
        let bytes = run.text.as_bytes();
        if bytes[0] == b'/' {
            return self.bare_end_tag(names, run, sink);
        }
        match tag_name(bytes) {
            0 => Ok(0),
            size if is_bare(bytes, size) => self.bare_start_tag(size, names, run, sink),
            size => Ok(self.begin_start_tag(size, run)?),
        }
    }

    /// End tag open state (`#end-tag-open-state`): takes the rest of an end tag without attributes, if the run has all of it. Returns its length, or 0.
    #[inline(always)]
    fn bare_end_tag<S: TokenSink>(&mut self, names: &mut Names, run: &Run, sink: &mut S) -> Taken
        requires less { self.old.state ≡ State.TagOpen }
        requires some { 0 < length run.now.text.now }
        requires solidus { slice_index run.now.text.now 0 ≡ 47 }
        ensures takes { FeedsRun (gives_item S.gives S.gives_token) self.old names.old run.now.at run.now.text.now names.new sink.old result sink.new self.new }
        ensures cut { IfOk result (λ count. IsCut count run.now.text.now) }
        ensures grows { Grows names.old names.new }
    {
        let size = bare_name(&run.text.as_bytes()[1..]);
        if size == 0 {
            return Ok(0);
        }
        let name = names.intern(self.alloc, &run.text[1..size + 1])?;
        self.next = run.at + size as u64 + 2;
        self.state = State::Text;
        give_tag(Token::End { name, at: self.at }, names, sink)?;
        Ok(size + 2)
    }

    /// Takes the rest of a start tag, the name of which has this length, if data comes after it. Returns its length, or 0.
    #[inline(always)]
    fn bare_start_tag<S: TokenSink>(
        &mut self,
        size: usize,
        names: &mut Names,
        run: &Run,
        sink: &mut S,
    ) -> Taken
        requires less { self.old.state ≡ State.TagOpen }
        requires bare { IsBareName run.now.text.now size }
        ensures takes { FeedsRun (gives_item S.gives S.gives_token) self.old names.old run.now.at run.now.text.now names.new sink.old result sink.new self.new }
        ensures cut { IfOk result (λ count. IsCut count run.now.text.now) }
        ensures grows { Grows names.old names.new }
    {
        let name = names.intern(self.alloc, &run.text[..size])?;
        let tag = name.tag();
        if tag.is_refused() || !matches!(tag.raw_kind(), RawKind::None) {
            return Ok(0);
        }
        self.next = run.at + size as u64 + 1;
        self.state = State::Text;
        self.last = Some(name);
        let token = Token::Start {
            name,
            attrs: Vec::new(self.alloc),
            closing: false,
            at: self.at,
        };
        give_tag(token, names, sink)?;
        Ok(size + 1)
    }

    /// Begins a start tag with its name, which has this length.
    #[inline(always)]
    fn begin_start_tag(&mut self, size: usize, run: &Run) -> Result<usize, AllocError>
        requires less { self.old.state ≡ State.TagOpen }
        requires named { IsTagName run.now.text.now size }
        ensures { IfOk result (λ count. (count ≡ size) × BeginsNamed self.old run.now.text.now run.now.at size self.new) }
    {
        self.tag.begin_start(&run.text[..size])?;
        self.next = run.at + size as u64;
        self.state = State::Tag;
        Ok(size)
    }
}
