use crate::transforms::making::{Given, TWO, bytes_of, damaged, first_wrong};
use crate::verdicts::all_hold;
use broker_fixtures::program_of;
use fixtures::FORWARD;
use item_rows::Origin;
use log_item::Program;
use std::alloc::Global;
use std::test::*;
use transform::{BatchPlace, OutputBatches, Stop, Transformed, transform_batches};
use wire_spec::{BatchFault, TIMESTAMP_END};

/// ldxb r0, [r1] after a test for one byte of the value; exit: the first byte is the reject code.
static REJECT: [u8; 40] = [
    0xb7, 0, 0, 0, 0, 0, 0, 0, // mov64 r0, 0
    0x25, 2, 1, 0, 0, 0, 0, 0, // jgt r2, 0, +1
    0x95, 0, 0, 0, 0, 0, 0, 0, // exit
    0x71, 0x10, 0, 0, 0, 0, 0, 0, // ldxb r0, [r1]
    0x95, 0, 0, 0, 0, 0, 0, 0, // exit
];

/// What a program makes of batches for two outputs, in at most so many bytes.
fn made(
    alloc: Global,
    program: &Program,
    offset: u64,
    bytes: &[u8],
    limit: u64,
    place: &mut BatchPlace,
) -> Result<Transformed, Stop> {
    if offset > TIMESTAMP_END {
        return Err(Stop::Memory);
    }
    let origin = Origin {
        input: 7,
        offset,
        outputs: 2,
    };
    transform_batches(alloc, program, &origin, bytes, limit, place)
}

/// Damage: how many bytes of two batches are left, and which is changed; the first offset; why the transform
/// stops, if it does; how many batches and bytes are before, or are read in all.
type Damage = (usize, usize, u64, Option<Stop>, usize, usize);

static DAMAGES: [Damage; 7] = [
    (0, 999, 5, None, 0, 0),
    (157, 999, 5, None, 2, 157),
    (82, 999, 5, None, 1, 82),
    (81, 999, 5, Some(Stop::Batch(BatchFault::Short)), 0, 0),
    (156, 999, 5, Some(Stop::Batch(BatchFault::Short)), 1, 82),
    (157, 70, 5, Some(Stop::Batch(BatchFault::Crc)), 0, 0),
    (157, 150, 5, Some(Stop::Batch(BatchFault::Crc)), 1, 82),
];

/// Whether a transform of these bytes ends as it should.
fn is_end(alloc: Global, program: &Program, bytes: &[u8], damage: &Damage) -> bool {
    let (_, _, offset, stop, batch, byte) = *damage;
    let mut place = BatchPlace {
        batch: 99,
        byte: 99,
    };
    match made(alloc, program, offset, bytes, u64::MAX, &mut place) {
        Err(why) => Some(why) == stop && place == BatchPlace { batch, byte },
        Ok(found) => stop.is_none() && found.batches == batch && bytes.len() == byte,
    }
}

fn ends_so(alloc: Global, program: &Program, damage: &Damage) -> bool {
    match damaged(alloc, damage.0, damage.1) {
        Some(bytes) => is_end(alloc, program, &bytes, damage),
        None => false,
    }
}

#[test]
fn stops_at_the_first_fault(rt: HostRuntime) {
    let alloc = rt.alloc();
    let is_right = |program: &Program, row: &Damage| ends_so(alloc, program, row);
    all_hold(&rt, first_wrong(alloc, &FORWARD, &DAMAGES, is_right));
}

static ENDINGS: [Damage; 2] = [
    (157, 999, TIMESTAMP_END - 10_002, Some(Stop::Full), 1, 82),
    (157, 999, TIMESTAMP_END - 10_003, None, 2, 157),
];

#[test]
fn stops_where_offsets_end(rt: HostRuntime) {
    let alloc = rt.alloc();
    let is_right = |program: &Program, row: &Damage| ends_so(alloc, program, row);
    all_hold(&rt, first_wrong(alloc, &FORWARD, &ENDINGS, is_right));
}

/// Of an output the number of rows, of batches and of bytes.
type Size = (u64, usize, usize);

fn size_of(output: &OutputBatches) -> Size {
    (output.rows, output.batches, output.bytes.len())
}

/// Whether the outputs have these sizes.
fn have_sizes(outputs: &[OutputBatches], want: &[Size]) -> bool {
    let mut rest = want;
    for output in outputs {
        match rest.split_first() {
            Some((first, others)) if size_of(output) == *first => rest = others,
            _ => return false,
        }
    }
    rest.is_empty()
}

/// The sizes of the outputs, how many records are read and how many are kept, and how many each code rejected.
type Made<'a> = (&'a [Size], (u64, u64), &'a [(u64, u64)]);

fn is_made(found: &Transformed, want: &Made<'_>) -> bool {
    let counts = (found.counts.records(), found.counts.kept());
    have_sizes(&found.outputs, want.0) && counts == want.1 && found.rejects.as_slice() == want.2
}

/// Whether a program makes this of bytes.
fn makes(alloc: Global, program: &Program, bytes: &[u8], want: &Made<'_>) -> bool {
    let mut place = BatchPlace { batch: 0, byte: 0 };
    match made(alloc, program, 0, bytes, u64::MAX, &mut place) {
        Ok(found) => is_made(&found, want),
        Err(_) => false,
    }
}

/// Whether the program of an image makes this of batches.
fn are_made(alloc: Global, image: &[u8], batches: &[Given], want: &Made<'_>) -> bool {
    match (program_of(alloc, image), bytes_of(alloc, batches)) {
        (Some(program), Some(bytes)) => makes(alloc, &program, &bytes, want),
        _ => false,
    }
}

/// A header and 5 records of 7 bytes.
static FIVE: Made<'static> = (&[(5, 1, 96), (0, 0, 0)], (5, 5), &[]);

#[test]
fn rows_of_two_batches_are_in_one(rt: HostRuntime) {
    assert!(rt; are_made(rt.alloc(), &FORWARD, &TWO, &FIVE));
}

static MANY: [Given; 2] = [(10_000, None), (1, None)];

/// 64 records of 7 bytes, 8,128 of 8 and 1,808 of 9 after a header, and one of 7 after another.
static MANY_MADE: Made<'static> = (&[(10_001, 2, 81_873), (0, 0, 0)], (10_001, 10_001), &[]);

#[test]
fn rows_past_a_batch_are_in_the_next(rt: HostRuntime) {
    assert!(rt; are_made(rt.alloc(), &FORWARD, &MANY, &MANY_MADE));
}

/// Batches of two, three and one values: the bytes 9, 3 and 0.
static VALUES: [Given; 3] = [(2, Some(9)), (3, Some(3)), (1, Some(0))];

/// All records but one are rejected.
static VALUES_MADE: Made<'static> = (&[(0, 0, 0), (0, 0, 0)], (6, 1), &[(3, 3), (9, 2)]);

#[test]
fn counts_rejects_by_rising_code(rt: HostRuntime) {
    assert!(rt; are_made(rt.alloc(), &REJECT, &VALUES, &VALUES_MADE));
}

/// A limit, and how many batches and bytes are read where it is passed; none where it isn't.
type Limit = (u64, Option<(usize, usize)>);

static THREE: [Given; 3] = [(10_000, None), (1, None), (1, None)];

/// The rows are a batch of 81,805 bytes, which is full with the second batch that is given, and one of 75, which is
/// written at the end.
static LIMITS: [Limit; 6] = [
    (0, Some((2, 81_873))),
    (81_804, Some((2, 81_873))),
    (81_805, Some((3, 81_941))),
    (81_879, Some((3, 81_941))),
    (81_880, None),
    (u64::MAX, None),
];

/// Whether a transform of these bytes is within the limit, or ends where it should.
fn is_limited(alloc: Global, program: &Program, bytes: &[u8], limit: &Limit) -> bool {
    let (most, passed) = *limit;
    let mut place = BatchPlace { batch: 0, byte: 0 };
    match made(alloc, program, 0, bytes, most, &mut place) {
        Ok(_) => passed.is_none(),
        Err(why) => why == Stop::Limit && passed == Some((place.batch, place.byte)),
    }
}

#[test]
fn rows_take_no_more_bytes_than_the_limit(rt: HostRuntime) {
    let alloc = rt.alloc();
    let is_right = |program: &Program, row: &Limit| match bytes_of(alloc, &THREE) {
        Some(bytes) => is_limited(alloc, program, &bytes, row),
        None => false,
    };
    all_hold(&rt, first_wrong(alloc, &FORWARD, &LIMITS, is_right));
}

/// Each record goes to output 0 as it is, and its offset, as eight bytes, to output 1.
static TWICE: [u8; 88] = [
    0x85, 0, 0, 0, 7, 0, 0, 0, // call 7
    0x7b, 0x0a, 0xf8, 0xff, 0, 0, 0, 0, // stx64 [r10-8], r0
    0xb7, 1, 0, 0, 0, 0, 0, 0, // mov64 r1, 0
    0x85, 0, 0, 0, 3, 0, 0, 0, // call 3
    0xb7, 1, 0, 0, 1, 0, 0, 0, // mov64 r1, 1
    0xbf, 0xa2, 0, 0, 0, 0, 0, 0, // mov64 r2, r10
    0x07, 2, 0, 0, 0xf8, 0xff, 0xff, 0xff, // add64 r2, -8
    0xb7, 3, 0, 0, 8, 0, 0, 0, // mov64 r3, 8
    0x85, 0, 0, 0, 4, 0, 0, 0, // call 4
    0xb7, 0, 0, 0, 0, 0, 0, 0, // mov64 r0, 0
    0x95, 0, 0, 0, 0, 0, 0, 0, // exit
];

/// A number of records of a batch, and of each output the number of bytes and the checksum of its batch.
type Parted = (usize, (usize, u32), (usize, u32));

/// As a program in another language spells these batches.
static PARTED: [Parted; 5] = [
    (256, (2045, 0x191d_292c), (4093, 0x6659_7950)),
    (257, (2053, 0xc02c_6e06), (4109, 0x751b_e506)),
    (287, (2293, 0x431b_2e66), (4589, 0xe3ef_a167)),
    (288, (2301, 0x6f19_c6da), (4605, 0xd2dd_14b4)),
    (600, (4797, 0x2a9b_ac9f), (9597, 0x5a31_6352)),
];

/// The number of bytes of an output, and the checksum of its first batch.
fn sum_of(output: &OutputBatches) -> (usize, u32) {
    let mut sum = 0u32;
    for byte in output.bytes.iter().skip(17).take(4) {
        sum = sum.wrapping_mul(256).wrapping_add(u32::from(*byte));
    }
    (output.bytes.len(), sum)
}

fn have_sums(outputs: &[OutputBatches], want: &Parted) -> bool {
    outputs.len() == 2 && sum_of(&outputs[0]) == want.1 && sum_of(&outputs[1]) == want.2
}

/// Whether the outputs of a batch of so many records have these checksums.
fn is_parted(alloc: Global, program: &Program, want: &Parted) -> bool {
    let Some(bytes) = bytes_of(alloc, &[(want.0, None)]) else {
        return false;
    };
    let mut place = BatchPlace { batch: 0, byte: 0 };
    match made(alloc, program, 0, &bytes, u64::MAX, &mut place) {
        Ok(found) => have_sums(&found.outputs, want),
        Err(_) => false,
    }
}

#[test]
fn parts_of_a_batch_give_its_rows_in_order(rt: HostRuntime) {
    let alloc = rt.alloc();
    let is_right = |program: &Program, row: &Parted| is_parted(alloc, program, row);
    all_hold(&rt, first_wrong(alloc, &TWICE, &PARTED, is_right));
}
