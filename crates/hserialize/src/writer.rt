//! Bytes to a target by way of a buffer, part by part.

ghost use Rattle.std.specs.Prelude.{◌≡◌, ◌+◌, ◌++◌, ◌≤◌, [], OnOk, flat_map, length, vec_capacity};
ghost use Rattle.hserialize.specs.Output.{AddsBytes, EndsOutput, IsNewWriter, IsFlushed, PutsTo, written_so_far};

use crate::target::{Target, write_all};
use names::Refusal;

/// What a function that writes by way of a buffer returns.
pub(crate) type Answer = Result<(), Refusal>;

/// How many bytes are held.
pub(crate) const ROOM: usize = 65536;

/// A target, and bytes that it is yet to be handed. Their memory is taken once: no write takes any.
#[derive(Drop)]
pub(crate) struct Writer<'t, W> {
    target: &'t mut W,
    held: &'t mut Vec<u8>,
}

impl<'t, W: Target> Writer<'t, W> {
    /// Nothing is held yet.
    pub(crate) fn new(target: &'t mut W, held: &'t mut Vec<u8>) -> Writer<'t, W>
        requires { held.old.items ≡ [] }
        ensures { IsNewWriter target.entry.ghost_name target.old result }
    {
        Writer { target, held }
    }

    fn hand_over(&mut self) -> Answer
        ensures put { PutsTo W.written W.failed self.old self.new [] result }
        ensures none { OnOk result (self.new.held.now.items ≡ []) }
        ensures room { vec_capacity self.new.held.now ≡ vec_capacity self.old.held.now }
    {
        write_all(self.target, self.held)?;
        self.held.clear();
        Ok(())
    }

    /// Hands over what is held, and flushes the target.
    pub(crate) fn finish(&mut self) -> Answer
        ensures ends { EndsOutput (written_so_far W.written W.failed self.old) (written_so_far W.written W.failed self.new) result }
        ensures flushed { OnOk result (IsFlushed W.flushes self.new.target.now) }
    {
        self.hand_over()?;
        if self.target.flush() {
            Ok(())
        } else {
            Err(Refusal::Write)
        }
    }
}

/// Holds bytes that there is room for.
#[inline]
fn hold<W: Target>(out: &mut Writer<W>, bytes: &[u8])
    requires { length out.old.held.now.items + length bytes.now ≤ vec_capacity out.old.held.now }
    ensures { AddsBytes (written_so_far W.written W.failed out.old) (written_so_far W.written W.failed out.new) bytes.now }
{
    let is_held = out.held.extend_from_slice(bytes).is_ok();
    prove!(is_held);
}

/// Writes all of the bytes, for which there is no room with those that are held.
#[cold]
#[inline(never)]
fn put_past<W: Target>(out: &mut Writer<W>, bytes: &[u8]) -> Answer
    ensures { PutsTo W.written W.failed out.old out.new bytes.now result }
{
    out.hand_over()?;
    if bytes.len() > out.held.capacity() {
        return write_all(out.target, bytes);
    }
    hold(out, bytes);
    Ok(())
}

/// Writes all of the bytes.
#[inline]
pub(crate) fn put<W: Target>(out: &mut Writer<W>, bytes: &[u8]) -> Answer
    ensures { PutsTo W.written W.failed out.old out.new bytes.now result }
{
    if bytes.len() > out.held.capacity() - out.held.len() {
        return put_past(out, bytes);
    }
    hold(out, bytes);
    Ok(())
}

pub(crate) fn put_parts<W: Target>(out: &mut Writer<W>, parts: &[&[u8]]) -> Answer
    ensures { PutsTo W.written W.failed out.old out.new (flat_map (λ p. p.now) parts.now) result }
{
    for part in parts {
        put(out, part)?;
    }
    Ok(())
}

/// Writes bytes, and then a text.
#[inline(always)]
pub(crate) fn put_before<W: Target>(out: &mut Writer<W>, before: &[u8], text: &str) -> Answer
    ensures { PutsTo W.written W.failed out.old out.new (before.now ++ text.now) result }
{
    put_parts(out, &[before, text.as_bytes()])
}
