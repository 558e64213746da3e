use crate::verdicts::all_hold;
use crc32c::sum;
use std::alloc::Global;

// The check value of CRC-32/ISCSI in catalogues of checksums, and examples of RFC 3720, appendix B.4.
static PUBLISHED: [(&[u8], u32); 4] = [
    (b"123456789", 0xe306_9283),
    (b"", 0),
    (&[0; 32], 0x8a91_36aa),
    (&[0xff; 32], 0x62a8_ab43),
];

/// The number of the first row with another sum.
fn first_wrong(rows: &[(&[u8], u32)]) -> Option<usize> {
    for (k, row) in rows.iter().enumerate() {
        if sum(row.0) != row.1 {
            return Some(k);
        }
    }
    None
}

#[test]
fn published_values(rt: HostRuntime) {
    all_hold(&rt, first_wrong(&PUBLISHED));
}

// Sums of strings of bytes 5a, taken bit by bit by a program of few lines in another language:
// below the length from which blocks are taken away, at it, and behind it; where one round takes all
// of them away, where two do, and where three do.
static LONG: [(usize, u32); 8] = [
    (2_047, 0x729e_bae7),
    (2_048, 0x5f32_f3f1),
    (2_063, 0x6e5c_56a2),
    (9_199, 0x962c_80bd),
    (9_200, 0x6511_b320),
    (10_255, 0x9081_e7a3),
    (16_727, 0x1eee_3b1f),
    (17_424, 0xb530_fba5),
];

/// The sum of the first bytes, none where there are fewer.
fn sum_of_first(bytes: &[u8], count: usize) -> Option<u32> {
    if count <= bytes.len() {
        Some(sum(&bytes[..count]))
    } else {
        None
    }
}

/// The number of the first row with another sum.
fn first_other(bytes: &[u8], rows: &[(usize, u32)]) -> Option<usize> {
    for (k, row) in rows.iter().enumerate() {
        if sum_of_first(bytes, row.0) != Some(row.1) {
            return Some(k);
        }
    }
    None
}

/// The same of so many bytes 5a. A number past the rows where memory ran out.
fn first_other_of_5a(alloc: Global, count: usize, rows: &[(usize, u32)]) -> Option<usize> {
    match vec![in alloc; 0x5a; count] {
        Ok(bytes) => first_other(&bytes, rows),
        Err(_) => Some(rows.len()),
    }
}

#[test]
fn long_messages(rt: HostRuntime) {
    all_hold(&rt, first_other_of_5a(rt.alloc(), 17_424, &LONG));
}
