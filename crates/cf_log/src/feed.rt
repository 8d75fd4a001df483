//! The lines of a log, one after another.

ghost use Rattle.std.specs.Prelude.{◌≡◌, ◌<◌, ◌≤◌, ◌+◌, ◌-◌, ◌++◌, [], drop, length, take, true, false, IfOk, OnErr, OnOk};
ghost use Rattle.cf_io.specs.Causes.{HasCause};
ghost use Rattle.cf_io.specs.Takes.{IsAtEnd};
ghost use Rattle.rv_machine.specs.Streams.{GivesInput};
ghost use Rattle.rv_text.specs.Lines.{without_return};
ghost use Rattle.cf_log.specs.Cutting.{FeedsLog, FillsHeld, FinishesLog, IsCut, IsLogPiece, log_fed};

use cf_io::{Failed, Source};
use rv_text::find_byte;
use std::marker::Model;

/// How many bytes are held: those of an unfinished line, and at least 4,096 more.
const ROOM: usize = 8192;

/// An unfinished line of this many bytes is too long, even if the last of them is a carriage return.
const TOO_MANY: usize = 514;

/// What comes next in a log.
#[derive(Clone, Copy)]
pub enum NextLine {
    /// A line that a line feed ends.
    Line,

    /// The unfinished line at the log's end.
    Last,

    /// An unfinished line that is too long.
    TooLong,

    /// Nothing: the log has ended.
    AtEnd,

    /// A take failed.
    Fault,
}

/// The latest line of a log, and the bytes after it that were taken and are not yet used.
#[derive(Drop)]
pub struct LogFeed {
    held: [u8; ROOM],
    line_from: usize,
    line_to: usize,
    at: usize,
    end: usize,
}

impl Model for LogFeed {
    ghost use Rattle.std.specs.Prelude.{◌≤◌, drop, take};
    ghost use Rattle.cf_log.specs.Cutting.{LogFeeding as Seen};

    ghost Value = { Seen };

    ghost view = { λ feed. record { line = drop feed.line_from (take feed.line_to feed.held); rest = drop feed.at (take feed.end feed.held) } };

    ghost invariant = { λ feed. (feed.line_from ≤ feed.line_to) × (feed.line_to ≤ 8192) × (feed.at ≤ feed.end) × (feed.end ≤ 8192) };
}

/// How many bytes of a line come before its line feed, or before the carriage return that precedes it.
#[tactic(auto, unfolding(rv_text::specs::Lines::without_return))]
fn size_of_line(piece: &[u8]) -> usize
    ensures line { take result piece.now ≡ without_return piece.now }
    ensures within { result ≤ length piece.now }
{
    match piece.strip_suffix(b"\r") {
        Some(front) => front.len(),
        None => piece.len(),
    }
}

/// Moves some of the held bytes to the beginning of the buffer.
#[tactic(auto, using(crate::proofs::Holding::moved))]
fn move_to_front(held: &mut [u8; ROOM], from: usize, to: usize)
    requires order { from ≤ to }
    requires within { to ≤ 8192 }
    ensures { take (to - from) held.new ≡ drop from (take to held.old) }
{
    held.copy_within(from..to, 0);
}

/// Takes bytes into the buffer from a place on, and returns how many.
fn take_at<S: Source>(log: &mut S, held: &mut [u8; ROOM], place: usize) -> Result<usize, Failed>
    requires { place < 8192 }
    ensures taken { IfOk result (λ count. FillsHeld (S.left log.old) (S.left log.new) (take place held.old) (take (place + count) held.new) count) }
    ensures within { IfOk result (λ count. place + count ≤ 8192) }
    ensures end { IfOk result (λ count. count ≡ 0 → IsAtEnd (S.left log.old)) }
    ensures failed { OnErr result ((held.new ≡ held.old) × GivesInput (S.left log.old) (S.left log.new) []) }
    ensures cause { HasCause (S.faults log.old) (S.faults log.new) result }
{
    log.take(&mut held[place..])
}

impl LogFeed {
    /// Nothing has been taken yet.
    pub fn new() -> LogFeed
        ensures { result ≡ record { line = []; rest = [] } }
    {
        LogFeed {
            held: [0; ROOM],
            line_from: 0,
            line_to: 0,
            at: 0,
            end: 0,
        }
    }

    /// The latest line.
    #[inline(always)]
    pub fn line(&self) -> &[u8]
        ensures { result.now ≡ self.now.line }
    {
        &self.held[self.line_from..self.line_to]
    }

    /// The bytes that were taken and are not yet used.
    #[inline(always)]
    fn rest(&self) -> &[u8]
        ensures rest { result.now ≡ self.now.rest }
        ensures few { length result.now ≤ 8192 }
    {
        &self.held[self.at..self.end]
    }

    /// Uses this many bytes, which are the line, and the line feed after them.
    fn use_piece(&mut self, size: usize, line: usize)
        requires piece { size < length self.old.rest }
        requires line { line ≤ size }
        ensures line { self.new.line ≡ take line self.old.rest }
        ensures rest { self.new.rest ≡ drop (size + 1) self.old.rest }
    {
        self.line_from = self.at;
        self.line_to = self.at + line;
        self.at += size + 1;
    }

    /// Uses all bytes that were taken as the line.
    fn use_rest(&mut self)
        ensures line { self.new.line ≡ self.old.rest }
        ensures rest { self.new.rest ≡ [] }
    {
        self.line_from = self.at;
        self.line_to = self.end;
        self.at = self.end;
    }

    /// Uses the next line, if its line feed was taken, and returns whether it was.
    fn cut(&mut self) -> bool
        ensures yes { result ≡ true → IsCut self.old.rest self.new }
        ensures no { result ≡ false → IsLogPiece self.old.rest }
        ensures still { result ≡ false → self.new.rest ≡ self.old.rest }
        ensures few { length self.old.rest ≤ 8192 }
    {
        let rest = self.rest();
        let size = find_byte(rest, b'\n');
        if size == rest.len() {
            return false;
        }
        let line = size_of_line(&rest[..size]);
        self.use_piece(size, line);
        true
    }

    /// Takes bytes after the few that are not yet used, and returns how many.
    fn fill<S: Source>(&mut self, log: &mut S) -> Result<usize, Failed>
        requires { length self.old.rest < 514 }
        ensures taken { IfOk result (λ count. FillsHeld (S.left log.old) (S.left log.new) self.old.rest self.new.rest count) }
        ensures end { IfOk result (λ count. count ≡ 0 → IsAtEnd (S.left log.old)) }
        ensures failed { OnErr result ((self.new.rest ≡ self.old.rest) × GivesInput (S.left log.old) (S.left log.new) []) }
        ensures cause { HasCause (S.faults log.old) (S.faults log.new) result }
    {
        let count = self.end - self.at;
        move_to_front(&mut self.held, self.at, self.end);
        self.line_from = 0;
        self.line_to = 0;
        self.at = 0;
        self.end = count;
        match take_at(log, &mut self.held, count) {
            Ok(taken) => {
                self.end = count + taken;
                Ok(taken)
            }
            Err(failed) => Err(failed),
        }
    }

    /// Uses what is left at the end of the log: an unfinished line, or nothing.
    #[tactic(auto, using(crate::proofs::Holding::nothing), unfolding(crate::specs::Cutting::FinishesLog))]
    fn finish(&mut self) -> NextLine
        ensures { FinishesLog self.old.rest self.new result }
    {
        if self.rest().is_empty() {
            NextLine::AtEnd
        } else {
            self.use_rest();
            NextLine::Last
        }
    }

    /// The next line of the log, or why there is none. Bytes are taken only if no line feed is among those not yet
    /// used. Each take asks for at least 4,096 bytes.
    pub fn next<S: Source>(&mut self, log: &mut S) -> NextLine
        ensures feeds { FeedsLog (S.left log.old) (S.left log.new) self.old self.new result }
        ensures cause { HasCause (S.faults log.old) (S.faults log.new) (log_fed result) }
    {
        while !self.cut() {
            if self.rest().len() >= TOO_MANY {
                self.use_rest();
                return NextLine::TooLong;
            }
            match self.fill(log) {
                Ok(0) => return self.finish(),
                Ok(_) => {}
                Err(_) => return NextLine::Fault,
            }
        }
        NextLine::Line
    }
}
