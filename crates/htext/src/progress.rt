//! Reads bytes as UTF-8 as far as their text is the same whatever follows, and hands that text to a sink.

ghost use Rattle.std.specs.Prelude.{◌≡◌, ℕ, ◌+◌, ◌-◌, ◌<◌, ◌≤◌, false, List, [], ◌∷◌, ◌++◌, length, map, take, drop, Ok, Err, IfOk, OnOk, IfErr};
ghost use Rattle.std.specs.Prelude.{MatchOption};
ghost use Rattle.std.specs.Char.{encode_utf8};
ghost use Rattle.std.specs.Str.{chars};
ghost use Rattle.std.specs.Str.Lossy.{utf8_valid_len};
ghost use Rattle.htext.specs.Vocabulary.{placed, Hands, NotUtf8, MAX_INPUT, Refuse, Replace, Policy, Whole, Bad, normalized, ends_in_return, items};
ghost use Rattle.htext.specs.Vocabulary.{Advances, bad_each, IsCleanFront, IsReading, next_front, IsAhead};

use crate::character::{hand_char, is_clean};
use crate::decoder::MAX_INPUT;
use crate::run::{RunBytes, bad_run, run};
use crate::sink::CharSink;
use crate::{BadBytes, Bom};
use names::Refusal;
use simdutf8::compat::from_utf8;

/// How far an input has been read.
#[derive(Drop)]
pub(crate) struct Progress {
    pub(crate) bom: Bom,
    pub(crate) bad_bytes: BadBytes,
    pub(crate) limit: u64,
    /// How many bytes have been read.
    pub(crate) read: u64,
    /// Whether the last character was a CR.
    pub(crate) after_return: bool,
    ghost limited: { limit ≤ MAX_INPUT },
    ghost within: { read ≤ limit },
}

/// What is at the front of bytes that begin with no character within the limit.
pub(crate) enum Front {
    /// So many bad parts, to be replaced, and how many bytes they have.
    Bad(usize, usize),
    /// Nothing yet: what it is depends on the bytes that follow.
    Waits,
    /// What is refused, whatever follows.
    Refused(Refusal),
}

impl Progress {
    /// Reads bytes that follow those read before, as many as are read whatever follows them, and hands their text to the sink. It returns
    /// how many these are; at most three are left, which may begin a character. The bytes are refused as soon as what is left can become
    /// neither a character nor a bad part within the limit.
    pub(crate) fn advance<S: CharSink>(
        &mut self,
        bytes: &[u8],
        sink: &mut S,
    ) -> Result<usize, Refusal>
        ensures reads { let how : Policy = record { bom = self.old.bom; bad = self.old.bad_bytes; limit = self.old.limit } in
            (all : List ℕ) → IsReading how self.old.read self.old.after_return all → bytes.now ≡ drop self.old.read all
            → Advances S.gives how self.old.read all bytes.now sink.old result self.new.read self.new.after_return sink.new }
        ensures few { IfOk result (λ count. (count ≤ length bytes.now) × (length bytes.now ≤ count + 3)) }
        ensures how { (self.new.bom ≡ self.old.bom) × (self.new.bad_bytes ≡ self.old.bad_bytes) × (self.new.limit ≡ self.old.limit) }
    {
        let mut count = 0;
        loop {
            let text = valid_text(self.fitting(&bytes[count..]), count > 0);
            self.hand_text(text, sink)?;
            count += text.len();
            match self.ahead(&bytes[count..]) {
                Front::Bad(parts, len) => {
                    self.hand_bad(parts, len, sink)?;
                    count += len;
                }
                Front::Waits => return Ok(count),
                Front::Refused(refusal) => return Err(refusal),
            }
        }
    }

    /// Ends the input, after these bytes, which were held: they are replaced or refused.
    pub(crate) fn end<S: CharSink>(&mut self, rest: &[u8], sink: &mut S) -> Result<(), Refusal>
        requires { 0 < length rest.now }
        ensures refused { self.old.bad_bytes ≡ Refuse → (result ≡ Err (NotUtf8 self.old.read)) × (sink.new ≡ sink.old) }
        ensures replaced { self.old.bad_bytes ≡ Replace → self.old.read + length rest.now ≤ self.old.limit
            → Hands S.gives sink.old (items (Bad self.old.read ∷ [])) result sink.new }
        ensures read { OnOk result (self.new.read ≡ self.old.read + length rest.now) }
        ensures error { IfErr result (λ _. self.new ≡ self.old) }
        ensures how { (self.new.bom ≡ self.old.bom) × (self.new.bad_bytes ≡ self.old.bad_bytes) × (self.new.limit ≡ self.old.limit) }
    {
        let room = self.limit - self.read;
        match self.bad_bytes {
            BadBytes::Replace if rest.len() as u64 <= room => self.hand_bad(1, rest.len(), sink),
            _ => Err(Refusal::NotUtf8 { at: self.read }),
        }
    }

    fn fitting<'a>(&self, bytes: &'a [u8]) -> &'a [u8]
        ensures { result.now ≡ take (self.now.limit - self.now.read) bytes.now }
    {
        let room = ((self.limit - self.read) as usize).min(bytes.len());
        &bytes[..room]
    }

    /// What is at the front of bytes that begin with no character within the limit: all that are each a bad part by itself, or what is next.
    fn ahead(&self, rest: &[u8]) -> Front
        ensures { IsAhead self.now.bad_bytes rest.now (self.now.limit - self.now.read) self.now.read result }
    {
        let alone = match self.bad_bytes {
            BadBytes::Refuse => 0,
            BadBytes::Replace => bad_run(rest, self.fitting(rest).len()),
        };
        if alone > 0 {
            return Front::Bad(alone, alone);
        }
        self.next(rest)
    }

    fn next(&self, rest: &[u8]) -> Front
        ensures { result ≡ next_front self.now.bad_bytes rest.now (self.now.limit - self.now.read) self.now.read }
    {
        let at = self.read;
        let room = (self.limit - at) as usize;
        let bad_len = match str::from_utf8(rest) {
            Ok("") => None,
            Ok(_) => return Front::Refused(Refusal::TooLarge { at }),
            Err(error) if error.valid_up_to() == 0 => error.error_len(),
            Err(_) => return Front::Refused(Refusal::TooLarge { at }),
        };
        match (self.bad_bytes, bad_len) {
            (BadBytes::Refuse, Some(_)) => Front::Refused(Refusal::NotUtf8 { at }),
            (BadBytes::Refuse, None) => Front::Waits,
            (BadBytes::Replace, _) if bad_len.unwrap_or(rest.len()) > room => Front::Refused(
                Refusal::TooLarge { at },
            ),
            (BadBytes::Replace, Some(part)) => Front::Bad(1, part),
            (BadBytes::Replace, None) => Front::Waits,
        }
    }

    /// Hands over what replaces the next `count` bad parts of the input, which have `len` bytes in all. Where they are more than one, each has one byte.
    fn hand_bad<S: CharSink>(
        &mut self,
        count: usize,
        len: usize,
        sink: &mut S,
    ) -> Result<(), Refusal>
        requires each { count ≤ len }
        requires fits { self.old.read + len ≤ self.old.limit }
        ensures handed { Hands S.gives sink.old (items (bad_each self.old.read count)) result sink.new }
        ensures read { OnOk result (self.new.read ≡ self.old.read + len) }
        ensures error { IfErr result (λ _. self.new ≡ self.old) }
        ensures end { OnOk result (self.new.after_return ≡ false) }
        ensures how { (self.new.bom ≡ self.old.bom) × (self.new.bad_bytes ≡ self.old.bad_bytes) × (self.new.limit ≡ self.old.limit) }
    {
        sink.take_bad(count, self.read)?;
        self.after_return = false;
        self.read += len as u64;
        Ok(())
    }

    #[inline(always)]
    fn hand_text<S: CharSink>(&mut self, text: &str, sink: &mut S) -> Result<(), Refusal>
        requires { self.old.read + length text.now ≤ self.old.limit }
        ensures handed { Hands S.gives sink.old
            (items (normalized self.old.bom self.old.after_return (map Whole (placed self.old.read (chars text.now))))) result sink.new }
        ensures read { OnOk result (self.new.read ≡ self.old.read + length text.now) }
        ensures end { OnOk result
            (self.new.after_return ≡ ends_in_return self.old.after_return (map Whole (placed self.old.read (chars text.now)))) }
        ensures how { (self.new.bom ≡ self.old.bom) × (self.new.bad_bytes ≡ self.old.bad_bytes) × (self.new.limit ≡ self.old.limit) }
    {
        let mut rest = text;
        let mut place = self.read;
        let mut after_return = self.after_return;
        while let Some((ch, after)) = split_first(rest) {
            // (after a CR an LF is left out, so no run begins there)
            if !after_return {
                let run = clean_run(rest);
                if run > 0 {
                    sink.take_run(&rest[..run], place)?;
                    place += run as u64;
                    rest = &rest[run..];
                    continue;
                }
            }
            hand_char(self.bom, after_return, ch, place, sink)?;
            after_return = ch == '\r';
            place += (rest.len() - after.len()) as u64;
            rest = after;
        }
        self.after_return = after_return;
        self.read = place;
        Ok(())
    }
}

#[inline]
fn split_first(text: &str) -> Option<(char, &str)>
    ensures { MatchOption result (text.now ≡ [])
        (λ it. (text.now ≡ encode_utf8 it.0 ++ it.1.now) × (length it.1.now < length text.now)) }
{
    let mut chars = text.chars();
    let first = chars.next()?;
    Some((first, chars.as_str()))
}

#[inline(always)]
fn clean_run(text: &str) -> usize
    ensures { IsCleanFront result text.now }
{
    let mut rest = text;
    loop {
        let count = run(RunBytes::Clean, rest.as_bytes());
        rest = &rest[count..];
        match split_first(rest) {
            Some((ch, after)) if is_clean(ch) => rest = after,
            _ => return text.len() - rest.len(),
        }
    }
}

/// The longest front that is UTF-8. After a bad part it is looked for byte by byte, since another may be near: `simdutf8` goes over
/// all of the bytes before it looks for the first that is bad.
fn valid_text(bytes: &[u8], after_bad: bool) -> &str
    ensures { result.now ≡ take (utf8_valid_len bytes.now) bytes.now }
{
    if after_bad {
        return valid_text_by_one(bytes);
    }
    match from_utf8(bytes) {
        Ok(text) => text,
        Err(error) => from_utf8(&bytes[..error.valid_up_to()]).unwrap(),
    }
}

fn valid_text_by_one(bytes: &[u8]) -> &str
    ensures { result.now ≡ take (utf8_valid_len bytes.now) bytes.now }
{
    match str::from_utf8(bytes) {
        Ok(text) => text,
        Err(error) => str::from_utf8(&bytes[..error.valid_up_to()]).unwrap(),
    }
}
