// Reading lines from a source.

ghost use Rattle.std.specs.Option.{option_to_list};
ghost use Rattle.std.specs.Prelude.{◌≡◌, ◌≢◌, ◌<◌, ◌≤◌, [], ◌∷◌, ◌++◌, false, IfErr, IfOk, IsTrue, MatchOption, OnErr, OnOk};
ghost use Rattle.texts.specs.Device.{Gives, GivesBytes, HasFailed};
ghost use Rattle.texts.specs.Incoming.{EndsWell, FailsAmidLine, GivesLine, IsEnough, KnowsNext, StopsFor, TakesByte, TakesNext, UsesByte, unread_of};

use crate::device::{DeviceFault, Source};
use arrayvec::ArrayVec;
use std::marker::Model;

/// The number of bytes read at once.
const BUFFER_LEN: usize = 4096;

/// How a line ended.
#[derive(Clone, Copy, PartialEq, Eq)]
pub enum LineEnd {
    /// With its line feed.
    Feed,
    /// The line is too long, or the source ends in the middle of it.
    Bad,
    /// There is no line: the source is at its end.
    Nothing,
}

/// Why a line was not read to its end.
#[derive(Clone, Copy, PartialEq, Eq)]
pub enum LineFault {
    /// The source failed.
    Read,
    /// Memory for a byte of the line was refused.
    NoMemory,
}

/// What the next byte means for a line.
#[derive(Clone, Copy)]
pub enum NextByte {
    /// It belongs to the line.
    Byte(u8),
    /// It ends the line.
    Ended(LineEnd),
}

/// The bytes that were read from a source and not used yet.
#[derive(Drop)]
pub struct Incoming {
    buffer: [u8; BUFFER_LEN],
    from: usize,
    to: usize,
    ended: bool,
}

impl Model for Incoming {
    ghost use Rattle.std.specs.Prelude.{◌≡◌, ◌≤◌, IsTrue, slice_range};
    ghost use Rattle.texts.specs.Incoming.{IncomingView};

    ghost Value = { IncomingView };

    ghost view = { λ i. record { bytes = slice_range i.buffer i.from i.to; ended = i.ended } };

    ghost invariant = { λ i. (i.from ≤ i.to) × (i.to ≤ 4096) × (IsTrue i.ended → i.from ≡ i.to) };
}

impl Incoming {
    /// No bytes read yet.
    pub fn new() -> Incoming
        ensures bytes { result.bytes ≡ [] }
        ensures ended { result.ended ≡ false }
    {
        Incoming {
            buffer: [0; BUFFER_LEN],
            from: 0,
            to: 0,
            ended: false,
        }
    }

    /// Reads more if no byte is left, but never after the end.
    fn refill<R: Source>(&mut self, input: &mut R) -> Result<(), DeviceFault>
        ensures same { OnOk result
            (Gives (unread_of self.old (R.state input.old)) []
            (unread_of self.new (R.state input.new))) }
        ensures end { OnOk result (self.new.bytes ≡ [] → IsTrue self.new.ended) }
        ensures quiet { KnowsNext self.old → (input.new ≡ input.old) × (self.new ≡ self.old) }
        ensures at_end { OnOk result (EndsWell self.old (R.state input.old)
            → EndsWell self.new (R.state input.new)) }
        ensures amid { OnErr result
            (GivesBytes (unread_of self.old (R.state input.old)).bytes [] (R.state input.new).bytes) }
        ensures failed { OnErr result (HasFailed (R.state input.old) (R.state input.new)) }
    {
        if self.from < self.to || self.ended {
            return Ok(());
        }
        match input.read(&mut self.buffer)? {
            0 => self.ended = true,
            count => {
                self.from = 0;
                self.to = count;
            }
        }
        Ok(())
    }

    /// Takes the first unused byte.
    fn pop(&mut self) -> Option<u8>
        ensures bytes { MatchOption result ((self.old.bytes ≡ [])
            × (self.new.bytes ≡ [])) (λ byte. self.old.bytes ≡ byte ∷ self.new.bytes) }
        ensures ended { self.new.ended ≡ self.old.ended }
    {
        if self.from == self.to {
            return None;
        }
        let byte = self.buffer[self.from];
        self.from += 1;
        Some(byte)
    }

    /// Takes the next byte, or None at the end.
    fn next_byte<R: Source>(&mut self, input: &mut R) -> Result<Option<u8>, DeviceFault>
        ensures byte { IfOk result
            (λ byte. TakesByte (unread_of self.old (R.state input.old)) byte
            (unread_of self.new (R.state input.new))) }
        ensures quiet { KnowsNext self.old
            → (input.new ≡ input.old) × (self.new.ended ≡ self.old.ended)
            × IfOk result (λ byte. self.old.bytes ≡ option_to_list byte ++ self.new.bytes) }
        ensures at_end { OnOk result (EndsWell self.old (R.state input.old)
            → EndsWell self.new (R.state input.new)) }
        ensures amid { OnErr result
            (GivesBytes (unread_of self.old (R.state input.old)).bytes [] (R.state input.new).bytes) }
        ensures failed { OnErr result (HasFailed (R.state input.old) (R.state input.new)) }
    {
        self.refill(input)?;
        Ok(self.pop())
    }

    /// Takes the next byte of a line that has `len` bytes and may have `longest`. The line ends with a line feed, at
    /// the byte after the longest line, or at the end of the source.
    fn next<R: Source>(
        &mut self,
        input: &mut R,
        len: usize,
        longest: usize,
    ) -> Result<NextByte, DeviceFault>
        ensures next { IfOk result
            (λ next. TakesNext longest len (unread_of self.old (R.state input.old)) next
            (unread_of self.new (R.state input.new))) }
        ensures quiet { KnowsNext self.old
            → (input.new ≡ input.old) × (self.new.ended ≡ self.old.ended)
            × IfOk result (λ next. UsesByte self.old.bytes next self.new.bytes) }
        ensures at_end { OnOk result (EndsWell self.old (R.state input.old)
            → EndsWell self.new (R.state input.new)) }
        ensures amid { OnErr result
            (GivesBytes (unread_of self.old (R.state input.old)).bytes [] (R.state input.new).bytes) }
        ensures failed { OnErr result (HasFailed (R.state input.old) (R.state input.new)) }
    {
        Ok(match self.next_byte(input)? {
            Some(b'\n') => NextByte::Ended(LineEnd::Feed),
            Some(byte) => if len < longest {
                NextByte::Byte(byte)
            } else {
                NextByte::Ended(LineEnd::Bad)
            },
            None => if len == 0 {
                NextByte::Ended(LineEnd::Nothing)
            } else {
                NextByte::Ended(LineEnd::Bad)
            },
        })
    }

    /// Reads the next line of at most `LONGEST` bytes into `line`, without its line feed. Err if the source fails.
    ///
    /// The end of the line is known at its line feed, at the byte after the longest line, or at the end of the source.
    /// Nothing more is read once it is known, nor after the end of the source. So if the source fails, the bytes that
    /// it gave did not decide the line. For a bad line the content of `line` is arbitrary.
    pub fn next_line<R: Source, const LONGEST: usize>(
        &mut self,
        input: &mut R,
        line: &mut ArrayVec<u8, LONGEST>,
    ) -> Result<LineEnd, DeviceFault>
        ensures line { IfOk result
            (λ end. GivesLine LONGEST (unread_of self.old (R.state input.old)) line.new.items end
            (unread_of self.new (R.state input.new))) }
        ensures quiet { IsEnough LONGEST self.old.bytes (IsTrue self.old.ended)
            → (input.new ≡ input.old) × (self.new.ended ≡ self.old.ended) }
        ensures at_end { OnOk result (EndsWell self.old (R.state input.old)
            → EndsWell self.new (R.state input.new)) }
        ensures amid { OnErr result
            (FailsAmidLine LONGEST (unread_of self.old (R.state input.old)) (R.state input.new)) }
        ensures failed { OnErr result (HasFailed (R.state input.old) (R.state input.new)) }
    {
        line.clear();
        loop {
            match self.next(input, line.len(), LONGEST)? {
                NextByte::Byte(byte) => line.push(byte),
                NextByte::Ended(end) => return Ok(end),
            }
        }
    }

    /// The same into memory that is taken as needed, for a line of at most `longest` bytes. Err(NoMemory) if memory is
    /// refused.
    pub fn next_long_line<R: Source>(
        &mut self,
        input: &mut R,
        line: &mut Vec<u8>,
        longest: usize,
    ) -> Result<LineEnd, LineFault>
        ensures line { IfOk result
            (λ end. GivesLine longest (unread_of self.old (R.state input.old)) line.new.items end
            (unread_of self.new (R.state input.new))) }
        ensures quiet { IsEnough longest self.old.bytes (IsTrue self.old.ended)
            → (input.new ≡ input.old) × (self.new.ended ≡ self.old.ended) }
        ensures at_end { result ≢ Err LineFault.Read → EndsWell self.old (R.state input.old)
            → EndsWell self.new (R.state input.new) }
        ensures fault { IfErr result
            (λ fault. StopsFor longest fault (unread_of self.old (R.state input.old))
            (unread_of self.new (R.state input.new))) }
    {
        line.clear();
        loop {
            let Ok(next) = self.next(input, line.len(), longest) else {
                return Err(LineFault::Read);
            };
            match next {
                NextByte::Byte(byte) => if line.push(byte).is_err() {
                    return Err(LineFault::NoMemory);
                },
                NextByte::Ended(end) => return Ok(end),
            }
        }
    }
}
