//! The first words of the header's lines and of the lines that begin sections.
ghost use Rattle.std.specs.Prelude.{◌≡◌};
ghost use Rattle.strm_script.specs.Word.{word_of};

/// The first word of a line that is no command.
#[derive(Clone, Copy, Debug, PartialEq, Eq)]
pub enum Word {
    Pool,
    Class,
    Queue,
    Bufcalls,
    Worker,
}

/// Returns the first word that is this text, if any.
pub fn word_of(text: &[u8]) -> Option<Word>
    ensures { result ≡ word_of text.now }
{
    match text {
        b"pool" => Some(Word::Pool),
        b"class" => Some(Word::Class),
        b"queue" => Some(Word::Queue),
        b"bufcalls" => Some(Word::Bufcalls),
        b"worker" => Some(Word::Worker),
        _ => None,
    }
}
