//! Random numbers, programs and records.
//!
//! A program is made of pieces that mostly load: arithmetic, loads behind a test of the length,
//! stores with loads of what they wrote, jumps over a piece, bytes of the value with a jump on them,
//! 64-bit immediates and calls, some of which emit bytes of the record or the stack by address, or
//! copy a part of the record or of a header to the stack, or look for bytes in one. A record has any
//! number of headers.

ghost use Rattle.std.specs.Prelude.{◌<◌};

use bpf_machine::{Header, Headers, Record, Table};
use bytes::Bytes;
use std::alloc::{AllocError, Global};

/// A source of numbers (splitmix64), which a seed determines.
#[derive(Drop)]
pub(crate) struct Random {
    state: u64,
}

static OPERATIONS: [u8; 12] = [
    0x00, 0x10, 0x20, 0x30, 0x40, 0x50, 0x60, 0x70, 0x90, 0xa0, 0xb0, 0xc0,
];

static TESTS: [u8; 11] = [
    0x10, 0x20, 0x30, 0x40, 0x50, 0x60, 0x70, 0xa0, 0xb0, 0xc0, 0xd0,
];

/// Operations and moves that a loop over records does.
static EVEN: [u8; 9] = [0x00, 0x10, 0x20, 0x40, 0x50, 0x60, 0x70, 0xa0, 0xb0];

/// Tests that a loop over records does.
static EVEN_TESTS: [u8; 6] = [0x10, 0x20, 0x30, 0x50, 0xa0, 0xb0];

/// The helpers that are called.
static HELPERS: [u8; 6] = [3, 6, 7, 8, 9, 10];

/// The registers that hold numbers from the beginning on.
static NUMBERS: [u8; 5] = [0, 6, 7, 8, 9];

/// Loads with the number of bytes that each reads.
static LOADS: [(u8, u8); 7] = [
    (0x71, 1),
    (0x69, 2),
    (0x61, 4),
    (0x79, 8),
    (0x91, 1),
    (0x89, 2),
    (0x81, 4),
];

/// The opcodes of a store of an immediate, of a register, and of a load of as many bytes.
static STORES: [(u8, u8, u8); 4] = [
    (0x72, 0x73, 0x71),
    (0x6a, 0x6b, 0x89),
    (0x62, 0x63, 0x81),
    (0x7a, 0x7b, 0x79),
];

/// Numbers at which signs and widths change.
static EDGES: [u64; 8] = [
    0,
    1,
    0x7f,
    0x8000_0000,
    0xffff_ffff,
    0x7fff_ffff_ffff_ffff,
    0x8000_0000_0000_0000,
    0xffff_ffff_ffff_ffff,
];

/// The bytes of a slot.
pub(crate) fn slot(opcode: u8, dst: u8, src: u8, offset: i16, imm: i32) -> [u8; 8] {
    let offset = offset.to_le_bytes();
    let imm = imm.to_le_bytes();
    [
        opcode,
        (dst % 16) | (src % 16) << 4,
        offset[0],
        offset[1],
        imm[0],
        imm[1],
        imm[2],
        imm[3],
    ]
}

/// Appends a slot to an image.
pub(crate) fn put(image: &mut Vec<u8>, fields: [u8; 8]) -> Result<(), AllocError> {
    image.extend_from_slice(&fields)?;
    Ok(())
}

/// Appends a jump and what it jumps over.
fn put_jump(image: &mut Vec<u8>, jump: [u8; 8], piece: &[u8]) -> Result<(), AllocError> {
    image.extend_from_slice(&jump)?;
    image.extend_from_slice(piece)?;
    Ok(())
}

impl Random {
    pub(crate) fn new(seed: u64) -> Random {
        Random { state: seed }
    }

    pub(crate) fn number(&mut self) -> u64 {
        self.state = self.state.wrapping_add(0x9e37_79b9_7f4a_7c15);
        let mut mixed = self.state;
        mixed = (mixed ^ (mixed >> 30)).wrapping_mul(0xbf58_476d_1ce4_e5b9);
        mixed = (mixed ^ (mixed >> 27)).wrapping_mul(0x94d0_49bb_1331_11eb);
        mixed ^ (mixed >> 31)
    }

    /// A number below a limit, or 0 where that is 0.
    pub(crate) fn below(&mut self, limit: u64) -> u64
        ensures { 0 < limit → result < limit }
    {
        let number = self.number();
        if limit == 0 { 0 } else { number % limit }
    }

    fn byte_of(&mut self, choices: &[u8]) -> u8 {
        let place = self.below(choices.len() as u64) as usize;
        choices.get(place).copied().unwrap_or(0)
    }

    pub(crate) fn register(&mut self) -> u8 {
        self.byte_of(&NUMBERS)
    }

    pub(crate) fn immediate(&mut self) -> i32 {
        let number = self.edge();
        ((number & 0xffff_ffff) as u32).cast_signed()
    }

    /// A number at an edge, near 0, or any.
    fn edge(&mut self) -> u64 {
        match self.below(3) {
            0 => {
                let place = self.below(EDGES.len() as u64) as usize;
                EDGES.get(place).copied().unwrap_or(0)
            }
            1 => self.below(80),
            _ => self.number(),
        }
    }

    fn push_wide(&mut self, image: &mut Vec<u8>, dst: u8) -> Result<(), AllocError> {
        let number = self.edge();
        let low = ((number & 0xffff_ffff) as u32).cast_signed();
        let high = ((number >> 32) as u32).cast_signed();
        put(image, slot(0x18, dst, 0, 0, low))?;
        put(image, slot(0, 0, 0, 0, high))
    }

    fn push_operation(&mut self, image: &mut Vec<u8>) -> Result<(), AllocError> {
        let code = self.byte_of(&OPERATIONS);
        let class = if self.below(2) == 0 { 7 } else { 4 };
        let signed = if code == 0x30 || code == 0x90 {
            self.below(2) as i16
        } else {
            0
        };
        let dst = self.register();
        if self.below(2) == 0 {
            let imm = self.immediate();
            put(image, slot(code | class, dst, 0, signed, imm))?;
        } else {
            let src = self.register();
            put(image, slot(code | class | 8, dst, src, signed, 0))?;
        }
        Ok(())
    }

    /// A negation, a byte order or a sign extension.
    fn push_change(&mut self, image: &mut Vec<u8>) -> Result<(), AllocError> {
        let dst = self.register();
        let src = self.register();
        let bits = self.byte_of(&[8, 16, 32]);
        let fields = match self.below(5) {
            0 => slot(0x87, dst, 0, 0, 0),
            1 => slot(0x84, dst, 0, 0, 0),
            2 => slot(
                self.byte_of(&[0xd4, 0xdc, 0xd7]),
                dst,
                0,
                0,
                2 * i32::from(bits),
            ),
            3 => slot(0xbf, dst, src, i16::from(bits), 0),
            _ => slot(0xbc, dst, src, i16::from(bits % 32), 0),
        };
        put(image, fields)
    }

    /// A load from the value or the key, behind a test of its length.
    fn push_load(&mut self, image: &mut Vec<u8>) -> Result<(), AllocError> {
        let place = self.below(LOADS.len() as u64) as usize;
        let (opcode, size) = LOADS.get(place).copied().unwrap_or((0x71, 1));
        let (address, length) = if self.below(2) == 0 { (1, 2) } else { (3, 4) };
        let offset = self.below(12) as i16;
        let slack = self.below(2) as i32;
        let least = i32::from(offset) + i32::from(size) + slack;
        put(image, slot(0xa5, length, 0, 1, least))?;
        let dst = self.register();
        put(image, slot(opcode, dst, address, offset, 0))
    }

    /// A store to the stack and a load of what it wrote.
    fn push_store(&mut self, image: &mut Vec<u8>) -> Result<(), AllocError> {
        let place = self.below(STORES.len() as u64) as usize;
        let (store, store_register, load) = STORES
            .get(place)
            .copied()
            .unwrap_or((0x7a, 0x7b, 0x79));
        let offset = -8 - self.below(24) as i16;
        if self.below(2) == 0 {
            let imm = self.immediate();
            put(image, slot(store, 10, 0, offset, imm))?;
        } else {
            let src = self.register();
            put(image, slot(store_register, 10, src, offset, 0))?;
        }
        let dst = self.register();
        put(image, slot(load, dst, 10, offset, 0))
    }

    /// A piece without a jump over another.
    fn push_piece(&mut self, image: &mut Vec<u8>) -> Result<(), AllocError> {
        match self.below(8) {
            0 => self.push_change(image),
            1 | 2 => self.push_load(image),
            3 => self.push_store(image),
            4 => {
                let dst = self.register();
                self.push_wide(image, dst)
            }
            _ => self.push_operation(image),
        }
    }

    /// A jump over a piece, and the piece.
    fn push_jump(&mut self, alloc: Global, image: &mut Vec<u8>) -> Result<(), AllocError> {
        let mut piece = Vec::new(alloc);
        self.push_piece(&mut piece)?;
        let slots = (piece.len() / 8 % 8) as i16;
        let test = self.byte_of(&TESTS);
        let class = if self.below(2) == 0 { 5 } else { 6 };
        let dst = self.register();
        let src = self.register();
        let imm = self.immediate();
        let jump = match self.below(6) {
            0 => slot(0x05, 0, 0, slots, 0),
            1 => slot(0x06, 0, 0, 0, i32::from(slots)),
            2 | 3 => slot(test | class, dst, 0, slots, imm),
            _ => slot(test | class | 8, dst, src, slots, 0),
        };
        put_jump(image, jump, &piece)
    }

    /// A byte of the value, behind a test of the length, and a jump on it over a piece. Where the value
    /// is too short, the jump tests what the byte's register had.
    fn push_byte_jump(&mut self, alloc: Global, image: &mut Vec<u8>) -> Result<(), AllocError> {
        let mut piece = Vec::new(alloc);
        self.push_piece(&mut piece)?;
        let slots = (piece.len() / 8 % 8) as i16;
        let offset = self.below(12) as i16;
        let dst = self.register();
        let test = self.byte_of(&TESTS);
        let imm = self.below(257) as i32;
        put(image, slot(0xa5, 2, 0, 1, i32::from(offset) + 1))?;
        put(image, slot(0x71, dst, 1, offset, 0))?;
        put_jump(image, slot(test | 5, dst, 0, slots, imm), &piece)
    }

    /// A call with an output in r1.
    fn push_call(&mut self, image: &mut Vec<u8>, number: i32) -> Result<(), AllocError> {
        let out = self.below(3) as i32;
        put(image, slot(0xb7, 1, 0, 0, out))?;
        put(image, slot(0x85, 0, 0, 0, number))
    }

    /// The address in r2 of eight bytes of the stack, of which half or all are stored here, and a
    /// length in r3.
    fn push_stack(&mut self, image: &mut Vec<u8>) -> Result<(), AllocError> {
        let imm = self.immediate();
        let (store, _, _) = STORES
            .get(2 + self.below(2) as usize)
            .copied()
            .unwrap_or((0x7a, 0x7b, 0x79));
        put(image, slot(store, 10, 0, -8, imm))?;
        put(image, slot(0xbf, 2, 10, 0, 0))?;
        put(image, slot(0x07, 2, 0, 0, -8))?;
        let length = self.below(9) as i32;
        put(image, slot(0xb7, 3, 0, 0, length))
    }

    /// The key by its address in r4 and its length in r5, or a part of it, or more than there is.
    fn push_key(&mut self, image: &mut Vec<u8>) -> Result<(), AllocError> {
        put(image, slot(0xbf, 5, 4, 0, 0))?;
        put(image, slot(0xbf, 4, 3, 0, 0))?;
        self.push_part(image, 4, 5)
    }

    /// The value by its address in r2 and its length in r3, or a part of it, or more than there is.
    fn push_value(&mut self, image: &mut Vec<u8>) -> Result<(), AllocError> {
        put(image, slot(0xbf, 3, 2, 0, 0))?;
        put(image, slot(0xbf, 2, 1, 0, 0))?;
        self.push_part(image, 2, 3)
    }

    /// Perhaps another length or a later place, which need not be there.
    fn push_part(&mut self, image: &mut Vec<u8>, address: u8, count: u8) -> Result<(), AllocError> {
        match self.below(6) {
            0 => {
                let length = self.below(4) as i32;
                put(image, slot(0xb7, count, 0, 0, length))?;
            }
            1 => put(image, slot(0x07, address, 0, 0, 1))?,
            _ => {}
        }
        Ok(())
    }

    /// An emission of the key or the value, of both, or of bytes of the stack, by address.
    fn push_emission(&mut self, image: &mut Vec<u8>) -> Result<(), AllocError> {
        match self.below(3) {
            0 => {
                self.push_value(image)?;
                self.push_call(image, 4)
            }
            1 => {
                self.push_stack(image)?;
                self.push_call(image, 4)
            }
            _ => {
                self.push_key(image)?;
                self.push_value(image)?;
                self.push_call(image, 5)
            }
        }
    }

    /// In r2 the place at which a part begins, which need not be there.
    pub(crate) fn push_place(&mut self, image: &mut Vec<u8>) -> Result<(), AllocError> {
        let place = match self.below(4) {
            0 => slot(0xbf, 2, self.register(), 0, 0),
            1 => slot(0xb7, 2, 0, 0, self.immediate()),
            _ => slot(0xb7, 2, 0, 0, self.below(20) as i32),
        };
        put(image, place)
    }

    /// The address of a place of the stack.
    pub(crate) fn push_address(
        &mut self,
        image: &mut Vec<u8>,
        register: u8,
        offset: i16,
    ) -> Result<(), AllocError> {
        put(image, slot(0xbf, register, 10, 0, 0))?;
        put(image, slot(0x07, register, 0, 0, i32::from(offset)))
    }

    /// A copy of a part of the value or the key to the stack, a load of some of its bytes, and perhaps
    /// an emission of them.
    fn push_copy(&mut self, image: &mut Vec<u8>) -> Result<(), AllocError> {
        let offset = -8 - self.below(24) as i16;
        let length = self.below(11) as i32;
        self.push_address(image, 1, offset)?;
        self.push_place(image)?;
        put(image, slot(0xb7, 3, 0, 0, length))?;
        let number = 1 + self.below(2) as i32;
        put(image, slot(0x85, 0, 0, 0, number))?;
        let place = self.below(LOADS.len() as u64) as usize;
        let (opcode, _) = LOADS.get(place).copied().unwrap_or((0x71, 1));
        let dst = self.register();
        put(image, slot(opcode, dst, 10, offset, 0))?;
        if self.below(2) == 0 {
            self.push_address(image, 2, offset)?;
            put(image, slot(0xb7, 3, 0, 0, length))?;
            self.push_call(image, 4)?;
        }
        Ok(())
    }

    /// How long a copy of a header's bytes is: mostly short, and at times as long as the stack or one
    /// byte longer.
    fn copied_length(&mut self) -> u64
        ensures { result < 514 }
    {
        match self.below(4) {
            0 => self.below(514),
            _ => 1 + self.below(10),
        }
    }

    /// A copy of a header's key or value to the stack, a load of one of its bytes, and perhaps an
    /// emission of them.
    fn push_header(&mut self, image: &mut Vec<u8>) -> Result<(), AllocError> {
        let length = self.copied_length();
        let offset = -(length as i16) - self.below(4) as i16;
        self.push_address(image, 1, offset)?;
        self.push_place(image)?;
        put(image, slot(0xb7, 3, 0, 0, length as i32))?;
        let number = 11 + self.below(2) as i32;
        put(image, slot(0x85, 0, 0, 0, number))?;
        if self.below(2) == 0 {
            let dst = self.register();
            let place = offset + self.below(length + 1) as i16;
            put(image, slot(0x71, dst, 10, place, 0))?;
        }
        if self.below(2) == 0 {
            self.push_address(image, 2, offset)?;
            put(image, slot(0xb7, 3, 0, 0, length as i32))?;
            self.push_call(image, 4)?;
        }
        Ok(())
    }

    /// Perhaps calls, then r0 and the exit.
    fn push_end(&mut self, image: &mut Vec<u8>, table: Table) -> Result<(), AllocError> {
        if let Table::Three = table {
            self.push_part_calls(image)?;
        }
        self.push_last_call(image)?;
        match self.below(4) {
            0 => put(image, slot(0xb7, 0, 0, 0, 0))?,
            1 => {}
            _ => {
                let src = self.register();
                put(image, slot(0xbf, 0, src, 0, 0))?;
            }
        }
        put(image, slot(0x95, 0, 0, 0, 0))
    }

    /// Perhaps a call of a helper of table 2.
    fn push_last_call(&mut self, image: &mut Vec<u8>) -> Result<(), AllocError> {
        match self.below(7) {
            0 => {
                let number = i32::from(self.byte_of(&HELPERS));
                self.push_call(image, number)?;
            }
            1 => self.push_emission(image)?,
            2 => self.push_copy(image)?,
            3 | 4 => self.push_header(image)?,
            _ => {}
        }
        Ok(())
    }

    /// The image of a program. One of sixteen has a byte changed, and need not decode.
    pub(crate) fn program(&mut self, alloc: Global, table: Table) -> Result<Vec<u8>, AllocError> {
        let mut image = Vec::new(alloc);
        self.push_program(alloc, &mut image, table)?;
        if self.below(16) == 0 {
            let place = self.below(image.len() as u64) as usize;
            let byte = (self.number() & 0xff) as u8;
            if let Some(old) = image.get_mut(place) {
                *old = byte;
            }
        }
        Ok(image)
    }

    fn push_program(
        &mut self,
        alloc: Global,
        image: &mut Vec<u8>,
        table: Table,
    ) -> Result<(), AllocError> {
        for register in &NUMBERS {
            self.push_wide(image, *register)?;
        }
        let pieces = 1 + self.below(24);
        for _ in 0..pieces {
            match self.below(9) {
                0..=2 => self.push_jump(alloc, image)?,
                3 => self.push_byte_jump(alloc, image)?,
                _ => self.push_piece(image)?,
            }
        }
        self.push_end(image, table)
    }

    /// An operation or a move of 64 bits that needs no quotient, or a byte of the value behind a test of
    /// the length.
    fn push_even(&mut self, image: &mut Vec<u8>) -> Result<(), AllocError> {
        let dst = self.register();
        let src = self.register();
        let code = self.byte_of(&EVEN);
        let imm = self.immediate();
        let offset = self.below(12) as i16;
        match self.below(8) {
            0 => {
                let least = i32::from(offset) + 1;
                put(image, slot(0xa5, 2, 0, 1, least))?;
                put(image, slot(0x71, dst, 1, offset, 0))?;
            }
            1..=4 => put(image, slot(code | 7, dst, 0, 0, imm))?,
            _ => put(image, slot(code | 15, dst, src, 0, 0))?,
        }
        Ok(())
    }

    /// A jump of 64 bits over up to eight of these.
    fn push_even_jump(&mut self, alloc: Global, image: &mut Vec<u8>) -> Result<(), AllocError> {
        let mut pieces = Vec::new(alloc);
        for _ in 0..self.below(8) {
            self.push_even(&mut pieces)?;
        }
        let slots = (pieces.len() / 8 % 32) as i16;
        let test = self.byte_of(&EVEN_TESTS);
        let dst = self.register();
        let src = self.register();
        let imm = self.immediate();
        let jump = if self.below(2) == 0 {
            slot(test | 5, dst, 0, slots, imm)
        } else {
            slot(test | 13, dst, src, slots, 0)
        };
        put_jump(image, jump, &pieces)
    }

    /// The image of a program most of whose instructions are operations, moves and jumps of 64 bits and
    /// loads of a byte. At times it ends early, and about one piece of thirty is any.
    pub(crate) fn even_program(
        &mut self,
        alloc: Global,
        table: Table,
    ) -> Result<Vec<u8>, AllocError> {
        let mut image = Vec::new(alloc);
        self.push_even_program(alloc, &mut image, table)?;
        Ok(image)
    }

    fn push_even_program(
        &mut self,
        alloc: Global,
        image: &mut Vec<u8>,
        table: Table,
    ) -> Result<(), AllocError> {
        for register in &NUMBERS {
            let imm = self.immediate();
            put(image, slot(0xb7, *register, 0, 0, imm))?;
        }
        let pieces = 20 + self.below(80);
        for _ in 0..pieces {
            match self.below(30) {
                0 => self.push_piece(image)?,
                1 => {
                    let dst = self.register();
                    put(image, slot(0x25, dst, 0, 1, 255))?;
                    put(image, slot(0x95, 0, 0, 0, 0))?;
                }
                2..=8 => self.push_even_jump(alloc, image)?,
                _ => self.push_even(image)?,
            }
        }
        self.push_end(image, table)
    }

    /// How many records a program is run on: 1 to 1,000, and mostly fewer than 300.
    pub(crate) fn count(&mut self) -> u64 {
        if self.below(8) == 0 {
            1 + self.below(1000)
        } else {
            100 + self.below(200)
        }
    }

    /// The helper table of a program, mostly the third.
    pub(crate) fn table(&mut self) -> Table {
        match self.below(8) {
            0 => Table::One,
            1..=3 => Table::Two,
            _ => Table::Three,
        }
    }

    fn bytes(&mut self, alloc: Global, length: u64) -> Result<Bytes, AllocError> {
        let mut bytes = Vec::new(alloc);
        for _ in 0..length {
            bytes.push((self.number() & 0xff) as u8)?;
        }
        Bytes::copy_from_slice(alloc, &bytes)
    }

    /// So many digits.
    fn digits(&mut self, alloc: Global, length: u64) -> Result<Bytes, AllocError> {
        let mut bytes = Vec::new(alloc);
        for _ in 0..length {
            bytes.push(b'0' + self.below(10) as u8)?;
        }
        Bytes::copy_from_slice(alloc, &bytes)
    }

    /// A null key or value, or up to 24 bytes, which may be digits.
    fn text(&mut self, alloc: Global) -> Result<Option<Bytes>, AllocError> {
        let length = self.below(25);
        match self.below(8) {
            0 => Ok(None),
            1 | 2 => Ok(Some(self.digits(alloc, length)?)),
            _ => Ok(Some(self.bytes(alloc, length)?)),
        }
    }

    /// A length, mostly a short one, and at times any up to the greatest.
    fn length(&mut self, greatest: u64) -> u64 {
        match self.below(32) {
            0 => self.below(greatest.saturating_add(1)),
            1 => greatest,
            _ => self.below(12),
        }
    }

    fn header(&mut self, alloc: Global) -> Result<Header, AllocError> {
        let key_length = self.length(255);
        let key = self.bytes(alloc, key_length)?;
        if self.below(4) == 0 {
            return Ok(Header { key, value: None });
        }
        let value_length = self.length(4096);
        let value = Some(self.bytes(alloc, value_length)?);
        Ok(Header { key, value })
    }

    /// None, or up to sixteen.
    fn headers(&mut self, alloc: Global) -> Result<Headers, AllocError> {
        let mut list = Vec::new(alloc);
        let count = self.below(17);
        for _ in 0..count {
            let header = self.header(alloc)?;
            list.push(header)?;
        }
        Ok(Headers { list })
    }

    pub(crate) fn record(&mut self, alloc: Global) -> Result<Record, AllocError> {
        Ok(Record {
            timestamp_delta: 0,
            key: self.text(alloc)?,
            value: self.text(alloc)?,
            headers: self.headers(alloc)?,
        })
    }
}
