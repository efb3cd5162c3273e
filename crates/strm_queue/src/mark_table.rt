//! The water marks of all bands of a queue, one pair for each band.
ghost use Rattle.std.specs.Prelude.{◌≡◌, replicate, slice_index_or, slice_set};
ghost use Rattle.strm_queue.specs.Flow.{no_marks};
ghost use Rattle.strm_queue.specs.Limits.{bands};

use crate::limits::BANDS;
use crate::marks::Marks;
use std::marker::Model;

// The water marks of the bands of a queue, from band 0 on.
#[derive(Debug, Drop)]
pub(crate) struct MarkTable {
    each: [Marks; BANDS],
}

impl Model for MarkTable {
    ghost use Rattle.std.specs.Prelude.{List};
    ghost use Rattle.strm_queue.specs.declared.marks.Marks.{Marks};

    ghost Value = { List Marks };

    ghost view = { λ t. t.each };
}

impl MarkTable {
    // Gives each band the same water marks.
    pub(crate) fn new(marks: Marks) -> MarkTable
        ensures { result ≡ replicate bands marks }
    {
        MarkTable {
            each: [marks; BANDS],
        }
    }

    // The water marks of one band.
    pub(crate) fn at(&self, band: u8) -> Marks
        ensures { result ≡ slice_index_or self.now band no_marks }
    {
        self.each[usize::from(band)]
    }

    // The water marks of each band, from band 0 on.
    pub(crate) fn each(&self) -> &[Marks; BANDS]
        ensures { result.now ≡ self.now }
    {
        &self.each
    }

    // Gives one band other water marks.
    pub(crate) fn set(&mut self, band: u8, marks: Marks)
        ensures { self.new ≡ slice_set self.old band marks }
    {
        self.each[usize::from(band)] = marks;
    }
}
