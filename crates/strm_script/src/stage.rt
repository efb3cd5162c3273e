//! Stages: which lines are allowed at which place of a script.
ghost use Rattle.std.specs.Prelude.{◌≡◌};
ghost use Rattle.strm_script.specs.Script.{may_stand};

use crate::word::Word;

/// How far a script was read, by its last line that says something.
#[derive(Clone, Copy, Debug, PartialEq, Eq)]
pub enum Stage {
    /// Only empty lines and comments were read.
    Start,
    Pool,
    Class,
    Queue,
    Bufcalls,
    /// The first worker section has begun. Only here may commands come.
    Body,
}

impl Stage {
    /// Says whether a line with this first word is allowed at this stage.
    pub fn allows(self, word: Word) -> bool
        ensures { result ≡ may_stand self word }
    {
        match self {
            Stage::Start => matches!(word, Word::Pool),
            Stage::Pool => matches!(word, Word::Class),
            Stage::Class => matches!(word, Word::Class | Word::Queue),
            Stage::Queue => matches!(word, Word::Queue | Word::Bufcalls),
            Stage::Bufcalls => matches!(word, Word::Worker),
            Stage::Body => matches!(word, Word::Worker),
        }
    }
}
