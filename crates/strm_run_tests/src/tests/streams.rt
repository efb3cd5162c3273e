//! Reading the input of a run, and writing its text, byte by byte.
ghost use Rattle.std.specs.Prelude.{◌≤◌};
ghost use Rattle.strm_script.specs.Limits.{most_script_bytes};

use super::faulty::{choppy_writer, slow_reader};
use std::io::Read;
use std::process::Abort;
use strm_run::{ReadFault, Watched, WriteFault, read_input, write_text};

const INPUT: &[u8] = b"pool 1 8\n";

// The input is read whole, and is this text.
fn expect_text(rt: &(impl Abort + AllocGlobal), max: u32, reader: &mut impl Read, text: &[u8])
    requires least { 1 ≤ max }
    requires most { max ≤ most_script_bytes }
{
    let input = read_input(rt.alloc(), max, &mut Watched::new(reader)).expect(rt, "an input");
    assert!(rt; input.as_slice() == text);
}

// Reading the input fails with this fault.
fn expect_fault(
    rt: &(impl Abort + AllocGlobal),
    max: u32,
    reader: &mut impl Read,
    wanted: ReadFault,
)
    requires least { 1 ≤ max }
    requires most { max ≤ most_script_bytes }
{
    let found = read_input(rt.alloc(), max, &mut Watched::new(reader)).err();
    assert!(rt; found == Some(wanted), "{found:?}");
}

// Reading the text byte by byte fails with this fault, after this number of bytes was taken.
fn expect_taken(
    rt: &(impl Abort + AllocGlobal),
    max: u32,
    cut: Option<usize>,
    wanted: ReadFault,
    taken: usize,
)
    requires least { 1 ≤ max }
    requires most { max ≤ most_script_bytes }
{
    let mut reader = slow_reader(INPUT, cut);
    expect_fault(rt, max, &mut reader, wanted);
    assert!(rt; reader.given == taken);
}

#[test]
fn reads_byte_by_byte(rt: HostRuntime) {
    expect_text(&rt, 10, &mut slow_reader(INPUT, None), INPUT);
}

#[test]
fn reads_more_than_a_chunk(rt: HostRuntime) {
    let text = vec![in rt.alloc(); b'#'; 10_000].expect(&rt, "memory");
    expect_text(&rt, 10_000, &mut text.as_slice(), &text);
    expect_fault(&rt, 9_999, &mut text.as_slice(), ReadFault::TooLong);
}

#[test]
fn takes_one_byte_too_many_at_most(rt: HostRuntime) {
    expect_taken(&rt, 8, None, ReadFault::TooLong, 9);
    expect_taken(&rt, 4, None, ReadFault::TooLong, 5);
    expect_text(&rt, 9, &mut slow_reader(INPUT, None), INPUT);
}

#[test]
fn a_failing_reader_is_a_read_fault(rt: HostRuntime) {
    for cut in [0, 5, 9] {
        expect_taken(&rt, 20, Some(cut), ReadFault::Read, cut);
    }
    // An input that is too long already is not read on.
    expect_taken(&rt, 4, Some(5), ReadFault::TooLong, 5);
}

const OUTPUT: &[u8] = b"0:7 ok\n0:8 ok\n";

// Writing the text, to a writer that takes this number of bytes at a time and may fail, has this result; the writer has these
// bytes then.
fn expect_written(
    rt: &(impl Abort + AllocGlobal),
    text: &[u8],
    most: usize,
    cut: Option<usize>,
    wanted: Result<(), WriteFault>,
    got: &[u8],
) {
    let mut writer = choppy_writer(rt.alloc(), most, cut);
    let found = write_text(&mut Watched::new(&mut writer), text);
    assert!(rt; found == wanted);
    assert!(rt; writer.got.as_slice() == got);
}

#[test]
fn writes_piece_by_piece(rt: HostRuntime) {
    expect_written(&rt, OUTPUT, 3, None, Ok(()), OUTPUT);
    expect_written(&rt, b"", 3, None, Ok(()), b"");
}

#[test]
fn a_failing_writer_has_the_beginning(rt: HostRuntime) {
    expect_written(&rt, OUTPUT, 5, Some(10), Err(WriteFault), b"0:7 ok\n0:8");
}

#[test]
fn a_writer_that_takes_nothing_is_a_write_fault(rt: HostRuntime) {
    expect_written(&rt, OUTPUT, 0, None, Err(WriteFault), b"");
}

#[test]
fn a_failing_flush_is_a_write_fault(rt: HostRuntime) {
    expect_written(
        &rt,
        OUTPUT,
        100,
        Some(OUTPUT.len()),
        Err(WriteFault),
        OUTPUT,
    );
}
