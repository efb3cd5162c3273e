use super::bench::Bench;
use super::{class, info};
use strm_data::{MOST_DATA_BLOCK_BYTES, MsgType, Refusal};

#[test]
fn takes_and_frees(rt: HostRuntime) {
    let mut bench = Bench::opened(&rt, rt.alloc(), &[class(16, 1), class(64, 1)]);
    bench.take(&rt, 0, Ok(0));
    bench.assert_block(&rt, 0, (1, MsgType::MData, 16));
    bench.take(&rt, 0, Ok(1));
    bench.assert_block(&rt, 1, (1, MsgType::MData, 64));
    bench.take(&rt, 0, Err(Refusal::NoData));
    bench.take(&rt, 65, Err(Refusal::TooLarge));
    bench.assert_fits(&rt, 1, true, false);
    bench.assert_block(&rt, 0, (1, MsgType::MData, 16));
    bench.name(&rt, 0);
    bench.assert_block(&rt, 0, (2, MsgType::MData, 16));
    bench.drop_name(&rt, 0);
    bench.assert_block(&rt, 0, (1, MsgType::MData, 16));
    bench.assert_fits(&rt, 16, true, false);
    bench.drop_name(&rt, 0);
    bench.assert_block(&rt, 0, (0, MsgType::MData, 16));
    bench.assert_fits(&rt, 16, true, true);
    bench.assert_fits(&rt, 17, true, false);
    bench.assert_class(&rt, 0, info(16, 1, 1));
    bench.assert_class(&rt, 1, info(64, 0, 1));
    bench.assert_class(&rt, 2, None);
    bench.assert_free_in_largest(&rt, 0);
}

#[test]
fn opens_with_all_free(rt: HostRuntime) {
    let mut bench = Bench::opened(&rt, rt.alloc(), &[class(4, 2), class(8, 1)]);
    for (number, cap) in [(0, 4), (1, 4), (2, 8)] {
        bench.assert_block(&rt, number, (0, MsgType::MData, cap));
        bench.assert_holds(&rt, number, [0, 0, 0, 0]);
    }
    bench.assert_class(&rt, 0, info(4, 2, 2));
    bench.assert_class(&rt, 1, info(8, 1, 1));
    bench.assert_free_in_largest(&rt, 1);
    for number in 0..3 {
        bench.take(&rt, 4, Ok(number));
    }
}

#[test]
fn has_classes_up_to_the_largest(rt: HostRuntime) {
    let classes = [class(1, 1), class(MOST_DATA_BLOCK_BYTES, 1)];
    let mut bench = Bench::opened(&rt, rt.alloc(), &classes);
    bench.take(&rt, 2, Ok(1));
    for (size, has, fits) in [
        (0, true, true),
        (1, true, true),
        (2, true, false),
        (MOST_DATA_BLOCK_BYTES, true, false),
        (MOST_DATA_BLOCK_BYTES + 1, false, false),
        (u32::MAX, false, false),
    ] {
        bench.assert_fits(&rt, size, has, fits);
    }
}

#[test]
fn writes_to_the_ends_of_a_block(rt: HostRuntime) {
    let mut bench = Bench::opened(&rt, rt.alloc(), &[class(4, 3)]);
    bench.write(&rt, 1, 0, &[1, 2]);
    bench.write(&rt, 1, 3, &[4]);
    bench.write(&rt, 0, 4, &[]);
    bench.assert_holds(&rt, 0, [0, 0, 0, 0]);
    bench.assert_holds(&rt, 1, [1, 2, 0, 4]);
    bench.assert_holds(&rt, 2, [0, 0, 0, 0]);
    bench.write(&rt, 0, 0, &[5, 5, 5, 5]);
    bench.write(&rt, 2, 0, &[6, 6, 6, 6]);
    bench.assert_holds(&rt, 1, [1, 2, 0, 4]);
    let mut last = [9];
    bench.read(&rt, 1, 3, &mut last);
    assert!(&rt; last == [4]);
    bench.read(&rt, 1, 4, &mut []);
}

#[test]
fn takes_the_last_freed_as_it_was_left(rt: HostRuntime) {
    let mut bench = Bench::opened(&rt, rt.alloc(), &[class(2, 3)]);
    bench.take(&rt, 2, Ok(0));
    bench.take(&rt, 2, Ok(1));
    bench.set_kind(&rt, 0, MsgType::MCtl);
    bench.assert_block(&rt, 0, (1, MsgType::MCtl, 2));
    bench.assert_block(&rt, 1, (1, MsgType::MData, 2));
    bench.write(&rt, 0, 0, &[7, 8]);
    bench.drop_name(&rt, 1);
    bench.drop_name(&rt, 0);
    bench.assert_block(&rt, 0, (0, MsgType::MCtl, 2));
    bench.take(&rt, 2, Ok(0));
    bench.assert_block(&rt, 0, (1, MsgType::MData, 2));
    let mut bytes = [9; 2];
    bench.read(&rt, 0, 0, &mut bytes);
    assert!(&rt; bytes == [7, 8]);
    bench.take(&rt, 2, Ok(1));
    bench.take(&rt, 2, Ok(2));
}

#[test]
fn copies_within_a_class(rt: HostRuntime) {
    let mut bench = Bench::opened(&rt, rt.alloc(), &[class(4, 3)]);
    bench.write(&rt, 0, 0, &[1, 2, 3, 4]);
    bench.write(&rt, 1, 0, &[5, 6, 7, 8]);
    bench.write(&rt, 2, 0, &[9, 10, 11, 12]);
    bench.copy(&rt, (0, 1), (2, 0), 2);
    bench.assert_holds(&rt, 0, [1, 2, 3, 4]);
    bench.assert_holds(&rt, 1, [5, 6, 7, 8]);
    bench.assert_holds(&rt, 2, [2, 3, 11, 12]);
    bench.copy(&rt, (2, 0), (1, 0), 4);
    bench.assert_holds(&rt, 0, [1, 2, 3, 4]);
    bench.assert_holds(&rt, 1, [2, 3, 11, 12]);
    bench.copy(&rt, (0, 4), (1, 4), 0);
    bench.copy(&rt, (1, 2), (0, 3), 0);
    bench.assert_holds(&rt, 0, [1, 2, 3, 4]);
    bench.assert_holds(&rt, 1, [2, 3, 11, 12]);
    bench.copy(&rt, (0, 0), (0, 1), 3);
    bench.assert_holds(&rt, 0, [1, 1, 2, 3]);
    bench.copy(&rt, (0, 2), (0, 0), 2);
    bench.assert_holds(&rt, 0, [2, 3, 2, 3]);
}

#[test]
fn copies_between_classes(rt: HostRuntime) {
    let classes = [class(4, 2), class(6, 2), class(MOST_DATA_BLOCK_BYTES, 1)];
    let mut bench = Bench::opened(&rt, rt.alloc(), &classes);
    bench.write(&rt, 1, 0, &[1, 2, 3, 4]);
    bench.write(&rt, 3, 0, &[5, 6, 7, 8, 9, 10]);
    bench.copy(&rt, (1, 0), (3, 2), 4);
    bench.assert_holds(&rt, 3, [5, 6, 1, 2]);
    bench.copy(&rt, (3, 3), (1, 0), 3);
    bench.assert_holds(&rt, 1, [2, 3, 4, 4]);
    bench.assert_holds(&rt, 0, [0, 0, 0, 0]);
    bench.assert_holds(&rt, 2, [0, 0, 0, 0]);
    bench.copy(&rt, (3, 6), (1, 4), 0);
    bench.copy(&rt, (1, 0), (3, 6), 0);
    bench.assert_holds(&rt, 1, [2, 3, 4, 4]);
}

#[test]
fn copies_to_and_from_the_last_places(rt: HostRuntime) {
    let classes = [class(4, 2), class(MOST_DATA_BLOCK_BYTES, 1)];
    let mut bench = Bench::opened(&rt, rt.alloc(), &classes);
    bench.write(&rt, 1, 0, &[1, 2, 3, 4]);
    let last = MOST_DATA_BLOCK_BYTES - 4;
    bench.copy(&rt, (1, 0), (2, last), 4);
    bench.copy(&rt, (2, last), (0, 0), 4);
    bench.assert_holds(&rt, 0, [1, 2, 3, 4]);
    bench.assert_holds(&rt, 2, [0, 0, 0, 0]);
}

#[test]
fn says_the_fewest_that_were_free(rt: HostRuntime) {
    let mut bench = Bench::opened(&rt, rt.alloc(), &[class(16, 3), class(64, 1)]);
    for (number, least) in [(0, Some(3)), (1, Some(1)), (2, None), (u8::MAX, None)] {
        bench.assert_least(&rt, number, least);
    }
    bench.take(&rt, 1, Ok(0));
    bench.take(&rt, 1, Ok(1));
    bench.drop_name(&rt, 0);
    bench.drop_name(&rt, 1);
    bench.take(&rt, 1, Ok(1));
    bench.assert_least(&rt, 0, Some(1));
    bench.take(&rt, 65, Err(Refusal::TooLarge));
    bench.reset_least();
    bench.assert_least(&rt, 0, Some(2));
    bench.take(&rt, 17, Ok(3));
    bench.take(&rt, 17, Err(Refusal::NoData));
    bench.assert_least(&rt, 0, Some(2));
    bench.assert_least(&rt, 1, Some(0));
    bench.drop_name(&rt, 3);
    bench.assert_least(&rt, 1, Some(0));
    bench.reset_least();
    bench.assert_least(&rt, 1, Some(1));
}

#[test]
fn lends_the_bytes_of_a_class(rt: HostRuntime) {
    let mut bench = Bench::opened(&rt, rt.alloc(), &[class(2, 2), class(3, 1)]);
    bench.write(&rt, 0, 0, &[1, 2]);
    bench.write(&rt, 1, 1, &[4]);
    bench.write(&rt, 2, 0, &[5, 6]);
    assert!(&rt; bench.region(0) == Some(&[1, 2, 0, 4][..]));
    assert!(&rt; bench.region(1) == Some(&[5, 6, 0][..]));
    assert!(&rt; bench.region(2).is_none());
}
