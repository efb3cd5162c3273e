//! The report of a pool: lines on blocks, size classes, queues, bands, the run list and wishes.
ghost use Rattle.std.specs.Prelude.{◌≡◌, ◌++◌, OnOk, OnErr, IsTrue};
ghost use Rattle.strm_pool.specs.PoolValue.{has_queue, queued_blocks_of};
ghost use Rattle.strm_script.specs.Text.{report_text};

use crate::piece::{Piece, append_whole, pieces};
use std::alloc::AllocError;
use strm_pool::{BandInfo, Census, ClassInfo, Pool, QueueInfo};

// The line on message blocks.
impl Piece for Census {
    ghost use Rattle.strm_script.specs.Text.{blocks_text};

    ghost bytes = { blocks_text };

    fn append(self, text: &mut Vec<u8>) -> Result<(), AllocError> {
        let Census { free, queued, held } = self;
        let total = u64::from(free) + u64::from(queued) + u64::from(held);
        let line = pieces!(
            ("blocks free=", free),
            (" queued=", queued),
            (" held=", held),
            (" total=", total),
            "\n"
        );
        line.append(text)
    }
}

// The line on a size class.
impl Piece for ClassInfo {
    ghost use Rattle.strm_script.specs.Text.{class_text};

    ghost bytes = { class_text };

    fn append(self, text: &mut Vec<u8>) -> Result<(), AllocError> {
        let ClassInfo { size, free, total } = self;
        let line = pieces!(
            ("data size=", size),
            (" free=", free),
            (" total=", total),
            "\n"
        );
        line.append(text)
    }
}

// The lines on size classes.
#[derive(Clone, Copy)]
struct Classes<'a>(&'a Pool);

impl Piece for Classes<'_> {
    ghost use Rattle.strm_data.specs.DataStore.{class_infos};
    ghost use Rattle.strm_script.specs.Text.{classes_text};

    ghost bytes = { λ classes. classes_text (class_infos classes.0.now.arena.store) };

    fn append(self, text: &mut Vec<u8>) -> Result<(), AllocError> {
        let Classes(pool) = self;
        pool.lawful();
        let mut class = 0;
        while let Some(info) = pool.class_info(class) {
            info.append(text)?;
            class += 1;
        }
        Ok(())
    }
}

// The line of a queue with this number.
#[derive(Clone, Copy)]
struct QueueLine(u8, QueueInfo);

impl Piece for QueueLine {
    ghost use Rattle.strm_script.specs.Text.{queue_text};

    ghost bytes = { λ line. queue_text line.0 line.1 };

    fn append(self, text: &mut Vec<u8>) -> Result<(), AllocError> {
        let QueueLine(queue, info) = self;
        let QueueInfo {
            msgs,
            bytes,
            read,
            noenable,
            enabled,
        } = info;
        let line = pieces!(
            ("queue ", queue),
            (" msgs=", msgs),
            (" bytes=", bytes),
            (" read=", read),
            (" noenable=", noenable),
            (" enabled=", enabled),
            "\n"
        );
        line.append(text)
    }
}

// The line of a band with this number, if the band has bytes.
#[derive(Clone, Copy)]
struct BandLine(u8, BandInfo);

impl Piece for BandLine {
    ghost use Rattle.strm_script.specs.Text.{band_text};

    ghost bytes = { λ line. band_text line.0 line.1 };

    fn append(self, text: &mut Vec<u8>) -> Result<(), AllocError> {
        let BandLine(band, info) = self;
        let BandInfo {
            bytes,
            full,
            wanted,
        } = info;
        if bytes == 0 {
            return Ok(());
        }
        let line = pieces!(
            ("band ", band),
            (" bytes=", bytes),
            (" full=", full),
            (" wanted=", wanted),
            "\n"
        );
        line.append(text)
    }
}

// The lines on the bands of a queue that exists.
#[derive(Clone, Copy)]
struct Bands<'a> {
    pool: &'a Pool,
    queue: u8,
    ghost there: { IsTrue (has_queue pool.now queue) },
}

impl Piece for Bands<'_> {
    ghost use Rattle.strm_script.specs.Text.{bands_text};

    ghost bytes = { λ bands. bands_text (queued_blocks_of bands.pool.now) bands.queue };

    fn append(self, text: &mut Vec<u8>) -> Result<(), AllocError> {
        for band in (0..=u8::MAX).rev() {
            let Ok(info) = self.pool.band_info(self.queue, band) else {
                return Ok(());
            };
            BandLine(band, info).append(text)?;
        }
        Ok(())
    }
}

// The lines on queues, each followed by those on its bands.
#[derive(Clone, Copy)]
struct Queues<'a>(&'a Pool);

impl Piece for Queues<'_> {
    ghost use Rattle.strm_script.specs.Text.{queues_text};

    ghost bytes = { λ queues. queues_text (queued_blocks_of queues.0.now) };

    fn append(self, text: &mut Vec<u8>) -> Result<(), AllocError> {
        let Queues(pool) = self;
        pool.lawful();
        let mut queue = 0;
        while let Ok(info) = pool.queue_info(queue) {
            (QueueLine(queue, info), Bands { pool, queue }).append(text)?;
            queue += 1;
        }
        Ok(())
    }
}

// The line on the run list.
#[derive(Clone, Copy)]
struct Run<'a>(&'a Pool);

impl Piece for Run<'_> {
    ghost use Rattle.strm_script.specs.Text.{run_text};

    ghost bytes = { λ run. run_text run.0.now.queues.run };

    fn append(self, text: &mut Vec<u8>) -> Result<(), AllocError> {
        let Run(pool) = self;
        if pool.run_at(0).is_none() {
            return "run -\n".append(text);
        }
        pool.lawful();
        "run".append(text)?;
        let mut place = 0;
        while let Some(queue) = pool.run_at(place) {
            pieces!(" ", queue).append(text)?;
            place += 1;
        }
        "\n".append(text)
    }
}

// The line on wishes.
#[derive(Clone, Copy)]
struct Wishes<'a>(&'a Pool);

impl Piece for Wishes<'_> {
    ghost use Rattle.strm_script.specs.Text.{wishes_text};

    ghost bytes = { λ wishes. wishes_text wishes.0.now.wishes.pending };

    fn append(self, text: &mut Vec<u8>) -> Result<(), AllocError> {
        let Wishes(pool) = self;
        if pool.wish_at(0).is_none() {
            return "wishes -\n".append(text);
        }
        pool.lawful();
        "wishes".append(text)?;
        let mut place = 0;
        while let Some((id, size)) = pool.wish_at(place) {
            pieces!(" ", id, ":", size).append(text)?;
            place += 1;
        }
        "\n".append(text)
    }
}

/// Appends the report of a pool: a line on its message blocks, one on each size class, one on each queue, one on the run list,
/// and one on wishes. A queue's line is followed by one on each of its bands with bytes. If memory is refused, the text is
/// unchanged.
pub fn report_text(text: &mut Vec<u8>, pool: &Pool) -> Result<(), AllocError>
    ensures ok { OnOk result (text.new.items ≡ text.old.items ++ report_text pool.now) }
    ensures refused { OnErr result (text.new.items ≡ text.old.items) }
{
    let report = pieces!(
        pool.census(),
        Classes(pool),
        Queues(pool),
        Run(pool),
        Wishes(pool)
    );
    append_whole(text, report)
}
