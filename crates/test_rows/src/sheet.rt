//! The rows of a file, line by line.

ghost use Rattle.std.specs.Prelude.{◌↔◌, IsTrue};
ghost use Rattle.test_rows.specs.Heads.{IsHead};

use crate::call::{Call, CallOutcome, FailingCallNumbers, NamedBytes, keep};
use crate::content::{change, number, split};
use crate::line_err::LineErr;
use crate::matching::Matching;
use std::alloc::{AllocError, Global};
use std::mem;

/// The part of a row whose bytes the next lines give.
#[derive(Clone, Copy)]
enum Part {
    Nothing,
    File,
    Kept,
    Input,
    Output,
    Report,
}

/// The expected outcome of a row's call.
#[derive(Drop)]
pub struct Wanted {
    /// The status that the process ends with.
    pub status: u8,
    /// The expected output, and how it is compared.
    pub output: (Matching, Vec<u8>),
    /// The expected report, and how it is compared.
    pub report: (Matching, Vec<u8>),
}

/// The row that is being read, and what is kept from one row to the next.
#[derive(Drop)]
pub struct Sheet {
    alloc: Global,
    /// The row's name; `None` before the first.
    name: Option<String>,
    call: Call,
    wanted: Wanted,
    part: Part,
    /// The text after the word that began the part: for a file or stored bytes, the name.
    rest: String,
    content: Vec<u8>,
    /// Bytes stored under names, among them the `output` and the `report` of the last call.
    kept: Vec<NamedBytes>,
}

fn nothing_wanted(alloc: Global) -> Wanted {
    Wanted {
        status: 0,
        output: (Matching::Whole, Vec::new(alloc)),
        report: (Matching::Whole, Vec::new(alloc)),
    }
}

/// The part that begins with the word, if one does.
fn part_of(word: &str) -> Option<Part> {
    match word {
        "file" => Some(Part::File),
        "keep" => Some(Part::Kept),
        "input" => Some(Part::Input),
        "output" => Some(Part::Output),
        "report" => Some(Part::Report),
        _ => None,
    }
}

/// How the bytes of the outcome have to match those of a part, by the words after the part's name.
fn matching_of(words: &str) -> Result<Matching, LineErr> {
    match words {
        "" => Ok(Matching::Whole),
        "begins" => Ok(Matching::Begins),
        "front" => Ok(Matching::Front),
        _ => match words.strip_prefix("size ") {
            Some(size) => Ok(Matching::Size(number(size)?)),
            None => Err(LineErr::Unknown),
        },
    }
}

impl Sheet {
    /// A sheet before the first row.
    pub fn new(alloc: Global) -> Sheet {
        Sheet {
            alloc,
            name: None,
            call: Call::new(alloc),
            wanted: nothing_wanted(alloc),
            part: Part::Nothing,
            rest: String::new(alloc),
            content: Vec::new(alloc),
            kept: Vec::new(alloc),
        }
    }

    /// Whether a row begins with the line.
    pub fn begins_row(line: &str) -> bool
        ensures { IsTrue result ↔ IsHead line.now }
    {
        line.starts_with("row ") || line.starts_with("again ")
    }

    /// The row's name; `None` before the first row.
    pub fn name(&self) -> Option<&str> {
        match &self.name {
            Some(name) => Some(name.as_str()),
            None => None,
        }
    }

    /// The expected outcome of the row.
    pub fn wanted(&self) -> &Wanted {
        &self.wanted
    }

    /// Swaps the bytes that were given with those of an unnamed part.
    fn hand_over(&mut self, part: Part) {
        match part {
            Part::Input => mem::swap(&mut self.call.input, &mut self.content),
            Part::Output => mem::swap(&mut self.wanted.output.1, &mut self.content),
            Part::Report => mem::swap(&mut self.wanted.report.1, &mut self.content),
            _ => {}
        }
    }

    /// Moves the bytes that were given to their part.
    fn close(&mut self) -> Result<(), AllocError> {
        let part = self.part;
        self.part = Part::Nothing;
        let (name, bytes) = (self.rest.as_str(), self.content.as_slice());
        match part {
            Part::File => keep(self.alloc, &mut self.call.files, name, bytes)?,
            Part::Kept => keep(self.alloc, &mut self.kept, name, bytes)?,
            _ => self.hand_over(part),
        }
        self.content.clear();
        Ok(())
    }

    /// The row's call.
    pub fn call(&mut self) -> Result<&Call, AllocError> {
        self.close()?;
        Ok(&self.call)
    }

    /// Stores what the row's call wrote, under the names `output` and `report`.
    pub fn keep(&mut self, outcome: &CallOutcome) -> Result<(), AllocError> {
        let (alloc, kept) = (self.alloc, &mut self.kept);
        keep(alloc, kept, "output", outcome.output.as_slice())?;
        keep(alloc, kept, "report", outcome.report.as_slice())
    }

    /// Begins a row with the same call as the row before.
    fn begin_again(&mut self, name: &str) -> Result<(), LineErr> {
        self.name = Some(String::from_str(self.alloc, name)?);
        self.wanted = nothing_wanted(self.alloc);
        self.call.fails = FailingCallNumbers::new(self.alloc);
        Ok(())
    }

    fn begin(&mut self, name: &str) -> Result<(), LineErr> {
        self.call = Call::new(self.alloc);
        self.begin_again(name)
    }

    fn set_words(&mut self, words: &str) -> Result<(), LineErr> {
        self.call.words.clear();
        for word in words.split_whitespace() {
            self.call.words.push(String::from_str(self.alloc, word)?)?;
        }
        Ok(())
    }

    /// As `fails report 2`: the second call of the report fails.
    fn add_failure(&mut self, words: &str) -> Result<(), LineErr> {
        let (whose, which) = split(words);
        let call = number(which)? as u64;
        match self.call.fails.list_of(whose) {
            Some(list) => Ok(list.push(call)?),
            None => Err(LineErr::Unknown),
        }
    }

    fn set_status(&mut self, word: &str) -> Result<(), LineErr> {
        match word.parse::<u8>() {
            Ok(status) => self.wanted.status = status,
            Err(_) => return Err(LineErr::Unknown),
        }
        Ok(())
    }

    /// Sets how the bytes of the outcome have to match those of the part.
    fn set_matching(&mut self, part: Part, words: &str) -> Result<(), LineErr> {
        match part {
            Part::Output => self.wanted.output.0 = matching_of(words)?,
            Part::Report => self.wanted.report.0 = matching_of(words)?,
            _ => {}
        }
        Ok(())
    }

    /// Begins a part whose bytes the next lines give.
    fn begin_part(&mut self, part: Part, rest: &str) -> Result<(), LineErr> {
        self.close()?;
        self.set_matching(part, rest)?;
        self.rest = String::from_str(self.alloc, rest)?;
        self.part = part;
        Ok(())
    }

    /// Changes the bytes of the part that has begun.
    fn tell(&mut self, word: &str, rest: &str) -> Result<(), LineErr> {
        match self.part {
            Part::Nothing => Err(LineErr::Unknown),
            _ => change(&mut self.content, self.kept.as_slice(), word, rest),
        }
    }

    /// Applies a line that does not begin a part.
    fn apply(&mut self, word: &str, rest: &str) -> Result<(), LineErr> {
        match word {
            "row" => self.begin(rest),
            "again" => self.begin_again(rest),
            "words" => self.set_words(rest),
            "fails" => self.add_failure(rest),
            "status" => self.set_status(rest),
            "piece" => Ok(self.call.piece = number(rest)?),
            "room" => Ok(self.call.room = number(rest)?),
            _ => self.tell(word, rest),
        }
    }

    /// Applies the line. A line that is not one of a row is refused.
    pub fn heed(&mut self, line: &str) -> Result<(), LineErr> {
        let (word, rest) = split(line);
        if word.is_empty() || word.starts_with("#") {
            return Ok(());
        }
        match part_of(word) {
            Some(part) => self.begin_part(part, rest),
            None => self.apply(word, rest),
        }
    }
}
