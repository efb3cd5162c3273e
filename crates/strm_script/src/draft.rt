//! A draft: what has been read of a script so far.
ghost use Rattle.std.specs.Prelude.{◌≡◌, ◌<◌, ◌≤◌, ◌++◌, ◌∷◌, [], List, ℕ, true, false, length, sum_by, Ok, IfOk, OnOk};
ghost use Rattle.strm_script.specs.Cut.{words_behind};
ghost use Rattle.strm_pool.specs.Limits.{most_workers};
ghost use Rattle.strm_script.specs.Limits.{most_command_lines};
ghost use Rattle.strm_script.specs.Entry.{Worker, Command, entry_of, read_call};
ghost use Rattle.strm_script.specs.Script.{Numbered, is_full, may_stand, with_word, with_call, with_entry, is_skipped, with_line, script_or_fault};
ghost use Rattle.strm_script.specs.Word.{word_of};
ghost use Rattle.strm_script.specs.Draft.{StandsFor, HasRoom, Reads, with_first};
ghost use Rattle.strm_script.specs.Parsed.{Parses};

use crate::call::call_of;
use crate::cut::cut_word;
use crate::fault::{Fault, Kind, LineFault, ParseFault};
use crate::limits::MOST_COMMAND_LINES;
use crate::script::Script;
use crate::shape::{four, none, two};
use crate::stage::Stage;
use crate::word::{Word, word_of};
use arrayvec::ArrayVec;
use std::alloc::{AllocError, Global};
use std::mem;
use strm_data::MOST_CLASSES;
use strm_pool::{
    Call, ClassSpec, ClassSpecs, Config, Line, Lines, MOST_QUEUES, MOST_WORKERS, Parts, QueueSpec,
    QueueSpecs,
};

/// What the lines of a script said so far, as a configuration and sections.
#[derive(Drop)]
pub struct Draft {
    alloc: Global,
    stage: Stage,
    id: u32,
    mblks: u32,
    classes: ArrayVec<ClassSpec, MOST_CLASSES>,
    queues: ArrayVec<QueueSpec, MOST_QUEUES>,
    bufcalls: u32,
    first_id: u32,
    // The complete sections, and the lines of the section that is being read.
    parts: Vec<Lines>,
    lines: Vec<Line>,
    // The number of further command lines that may come.
    left: usize,
}

// Whether a line says nothing: it is empty or a comment.
fn is_skipped(text: &[u8]) -> bool
    ensures { result ≡ is_skipped text.now }
{
    matches!(text, [] | [b'#', ..])
}

impl Draft {
    /// Makes a draft before the first line.
    pub fn new(alloc: Global) -> Draft
        ensures { StandsFor result [] }
    {
        Draft {
            alloc,
            stage: Stage::Start,
            id: 0,
            mblks: 0,
            classes: ArrayVec::new(),
            queues: ArrayVec::new(),
            bufcalls: 0,
            first_id: 0,
            parts: Vec::new(alloc),
            lines: Vec::new(alloc),
            left: MOST_COMMAND_LINES,
        }
    }

    // Whether there are already as many lines with this first word as there may be.
    fn is_full(&self, word: Word) -> bool
        ensures exact { (es : List Numbered) → StandsFor self.now es → result ≡ is_full es word }
        ensures room { result ≡ false → HasRoom self.now word }
    {
        match word {
            Word::Pool | Word::Bufcalls => false,
            Word::Class => self.classes.is_full(),
            Word::Queue => self.queues.is_full(),
            // The section that is being read counts too.
            Word::Worker => self.parts.len() + 1 >= MOST_WORKERS,
        }
    }

    // The first word of a line, if it is allowed at this stage and there is room for it.
    fn first_word(&self, text: &[u8]) -> Result<Word, Kind>
        ensures stands { IfOk result (λ word. may_stand self.now.stage word ≡ true) }
        ensures room { IfOk result (λ word. HasRoom self.now word) }
        ensures reads { (es : List Numbered) (n : ℕ) (arguments : List (List ℕ)) → StandsFor self.now es
            → with_word es n (word_of text.now) arguments ≡ with_first es n result arguments }
    {
        match word_of(text) {
            None => Err(Kind::Unknown),
            Some(word) if !self.stage.allows(word) => Err(Kind::Order),
            Some(word) if self.is_full(word) => Err(Kind::Toomany),
            Some(word) => Ok(word),
        }
    }

    // Begins a section. The one that was being read is complete.
    fn begin_section(&mut self) -> Result<(), AllocError>
        requires stands { may_stand self.old.stage Word.Worker ≡ true }
        requires room { HasRoom self.old Word.Worker }
        ensures { OnOk result ((es : List Numbered) (n : ℕ) → StandsFor self.old es
            → StandsFor self.new (es ++ record { number = n; entry = Worker } ∷ [])) }
    {
        if self.stage != Stage::Body {
            self.stage = Stage::Body;
            return Ok(());
        }
        let lines = mem::replace(&mut self.lines, Vec::new(self.alloc));
        Ok(self.parts.push(Lines::of(lines))?)
    }

    // Adds a line to the section that is being read.
    fn put_call(&mut self, number: u32, call: Call) -> Result<(), AllocError>
        requires begun { self.old.stage ≡ Stage.Body }
        requires room { 0 < self.old.left }
        ensures { OnOk result ((es : List Numbered) → StandsFor self.old es
            → StandsFor self.new (es ++ record { number = number; entry = Command call } ∷ [])) }
    {
        self.lines.push(Line { number, call })?;
        self.left -= 1;
        Ok(())
    }

    // Takes in a command line with this call, or with the fault of its arguments.
    fn take_call(
        &mut self,
        number: u32,
        read: Result<(), Kind>,
        call: Call,
    ) -> Result<(), LineFault>
        ensures { (es : List Numbered) → StandsFor self.old es
            → Reads self.new result (with_call es number (read_call read call)) }
    {
        if self.stage != Stage::Body {
            return Err(LineFault::Kind(Kind::Order));
        }
        if self.left == 0 {
            return Err(LineFault::Kind(Kind::Toomany));
        }
        read?;
        self.put_call(number, call)?;
        Ok(())
    }

    // Takes in a line with this first word and these arguments.
    fn take(&mut self, number: u32, word: Word, arguments: Option<&[u8]>) -> Result<(), LineFault>
        requires stands { may_stand self.old.stage word ≡ true }
        requires room { HasRoom self.old word }
        ensures { (es : List Numbered) → StandsFor self.old es
            → Reads self.new result (with_entry es number (entry_of word (words_behind arguments.entry))) }
    {
        match word {
            Word::Pool => {
                (self.id, self.mblks) = two(arguments)?;
                self.stage = Stage::Pool;
            }
            Word::Class => {
                let (size, count) = two(arguments)?;
                self.classes.push(ClassSpec { size, count });
                self.stage = Stage::Class;
            }
            Word::Queue => {
                let (hiwat, lowat, service, next) = four(arguments)?;
                self.queues.push(QueueSpec {
                    hiwat,
                    lowat,
                    service,
                    next,
                });
                self.stage = Stage::Queue;
            }
            Word::Bufcalls => {
                (self.bufcalls, self.first_id) = two(arguments)?;
                self.stage = Stage::Bufcalls;
            }
            Word::Worker => {
                none(arguments)?;
                self.begin_section()?;
            }
        }
        Ok(())
    }

    /// Reads line `number`, or returns its first fault, or out of memory.
    pub fn read(&mut self, number: u32, text: &[u8]) -> Result<(), LineFault>
        ensures { (es : List Numbered) → StandsFor self.old es
            → Reads self.new result (with_line es number text.now) }
    {
        if is_skipped(text) {
            return Ok(());
        }
        let (first, arguments) = cut_word(text);
        let mut call = Call::Census;
        if let Some(read) = call_of(first, arguments, &mut call) {
            return self.take_call(number, read, call);
        }
        let word = self.first_word(first)?;
        self.take(number, word, arguments)
    }

    /// Returns the script, which ends before line `number`. If there is no worker section, one is missing on that line.
    pub fn finish(self, number: u32) -> Result<Script, ParseFault>
        ensures parses { (es : List Numbered) → StandsFor self es → Parses result (script_or_fault number (Ok es)) }
        ensures some { IfOk result (λ script. 1 ≤ length script.parts) }
        ensures few { (es : List Numbered) → StandsFor self es
            → IfOk result (λ script. length script.parts ≤ most_workers) }
        ensures within { (es : List Numbered) → StandsFor self es
            → IfOk result (λ script. sum_by length script.parts ≤ most_command_lines) }
    {
        if self.stage != Stage::Body {
            let kind = Kind::Missing;
            return Err(ParseFault::Script(Fault { line: number, kind }));
        }
        let config = Config {
            id: self.id,
            mblks: self.mblks,
            classes: ClassSpecs::of(self.classes),
            queues: QueueSpecs::of(self.queues),
            bufcalls: self.bufcalls,
            first_id: self.first_id,
        };
        let mut parts = self.parts;
        if parts.push(Lines::of(self.lines)).is_err() {
            return Err(ParseFault::Memory);
        }
        Ok(Script {
            config,
            parts: Parts::of(parts),
        })
    }
}
