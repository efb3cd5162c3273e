//! The transcript: a line for each reply, as `WORKER:LINE REPLY`.
ghost use Rattle.std.specs.Prelude.{◌≡◌, ◌++◌, OnOk, OnErr};
ghost use Rattle.strm_script.specs.Text.{reply_line};

use crate::piece::{Piece, append_whole, pieces};
use itoa::write_digits;
use std::alloc::AllocError;
use strm_pool::{BlockInfo, Census, Reply};

// The greatest number of bytes of a worker, a colon and a line number.
const MOST_LABEL: usize = 14;

// The greatest number of bytes of a census's three numbers, with one more byte for each.
const MOST_COUNTS: usize = 33;

// The digits of base 16.
const DIGITS: [u8; 16] = *b"0123456789abcdef";

// The beginning of a transcript's line: the number of a worker, and of a line of the script.
#[derive(Clone, Copy)]
struct Label {
    worker: u8,
    line: u32,
}

impl Piece for Label {
    ghost use Rattle.std.specs.Prelude.{codes, decimal};

    ghost bytes = { λ label. decimal label.worker ++ (codes ":" ++ decimal label.line) };

    #[inline(always)]
    fn append(self, text: &mut Vec<u8>) -> Result<(), AllocError> {
        let mut label = [0; MOST_LABEL];
        let colon = write_digits(u64::from(self.line), &mut label, MOST_LABEL) - 1;
        label[colon] = b':';
        let start = write_digits(u64::from(self.worker), &mut label, colon);
        text.extend_from_slice(&label[start..])
    }
}

// Bytes, in lower case hexadecimal digits.
#[derive(Clone, Copy)]
struct Hex<'a>(&'a [u8]);

impl Piece for Hex<'_> {
    ghost use Rattle.strm_script.specs.Text.{octets_text};

    ghost bytes = { λ hex. octets_text hex.0.now };

    fn append(self, text: &mut Vec<u8>) -> Result<(), AllocError> {
        if self.0.is_empty() {
            return "-".append(text);
        }
        for byte in self.0 {
            let (high, low) = (byte / 16, byte % 16);
            text.extend_from_slice(&[DIGITS[high as usize], DIGITS[low as usize]])?;
        }
        Ok(())
    }
}

impl Piece for BlockInfo {
    ghost use Rattle.strm_script.specs.Text.{block_text};

    ghost bytes = { block_text };

    fn append(self, text: &mut Vec<u8>) -> Result<(), AllocError> {
        let BlockInfo {
            kind,
            len,
            band,
            room,
            names,
        } = self;
        let name = kind.name();
        let line = pieces!(
            ("block ", name),
            (" len=", len),
            (" band=", band),
            (" room=", room),
            (" names=", names)
        );
        line.append(text)
    }
}

// The numbers of a census, and the line end. They are written from the last byte to the first, and appended at once.
#[derive(Clone, Copy)]
struct Counts(Census);

impl Piece for Counts {
    ghost use Rattle.std.specs.Prelude.{codes, decimal};

    ghost bytes = { λ counts. decimal counts.0.free
        ++ (codes " " ++ (decimal counts.0.queued ++ (codes " " ++ (decimal counts.0.held ++ codes "\n")))) };

    fn append(self, text: &mut Vec<u8>) -> Result<(), AllocError> {
        let Counts(census) = self;
        let mut counts = [b'\n'; MOST_COUNTS];
        let held = write_digits(u64::from(census.held), &mut counts, MOST_COUNTS - 1);
        counts[held - 1] = b' ';
        let queued = write_digits(u64::from(census.queued), &mut counts, held - 1);
        counts[queued - 1] = b' ';
        let free = write_digits(u64::from(census.free), &mut counts, queued - 1);
        text.extend_from_slice(&counts[free..])
    }
}

// The text of a reply, and the line end.
impl Piece for &Reply {
    ghost use Rattle.std.specs.Prelude.{codes};
    ghost use Rattle.strm_script.specs.Text.{reply_text};

    ghost bytes = { λ reply. codes " " ++ (reply_text reply.now ++ codes "\n") };

    fn append(self, text: &mut Vec<u8>) -> Result<(), AllocError> {
        match self {
            Reply::Done => " ok\n".append(text),
            Reply::Yes => " yes\n".append(text),
            Reply::No => " no\n".append(text),
            Reply::Nothing => " none\n".append(text),
            Reply::Empty => " empty\n".append(text),
            Reply::Taken => " taken\n".append(text),
            Reply::Size(size) => pieces!(" size ", *size, "\n").append(text),
            Reply::Bytes(octets) => pieces!(" bytes ", Hex(octets.items()), "\n").append(text),
            Reply::Block(info) => pieces!(" ", *info, "\n").append(text),
            Reply::Id(id) => pieces!(" id ", *id, "\n").append(text),
            Reply::Ready(id, size) => pieces!(" ready ", *id, " ", *size, "\n").append(text),
            Reply::Queue(queue) => pieces!(" queue ", *queue, "\n").append(text),
            Reply::Marks(hiwat, lowat) => pieces!(" marks ", *hiwat, " ", *lowat, "\n").append(
                text,
            ),
            Reply::Census(census) => pieces!(" census ", Counts(*census)).append(text),
            Reply::Refused(refusal) => {
                let (number, name) = (refusal.number(), refusal.name());
                pieces!(" refused ", number, " ", name, "\n").append(text)
            }
        }
    }
}

/// Appends the transcript's line for a reply to a worker's line. If memory is refused, the text is unchanged.
pub fn reply_text(
    text: &mut Vec<u8>,
    worker: u8,
    line: u32,
    reply: &Reply,
) -> Result<(), AllocError>
    ensures ok { OnOk result (text.new.items ≡ text.old.items ++ reply_line worker line reply.now) }
    ensures refused { OnErr result (text.new.items ≡ text.old.items) }
{
    append_whole(text, (Label { worker, line }, reply))
}
