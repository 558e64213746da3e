//! Random calls of the helpers over parts of a record.

use crate::random::{Random, put, slot};
use std::alloc::AllocError;

/// Where bytes are on the stack that a helper reads: the offset from its end.
const BYTES_AT: i16 = -8;

impl Random {
    /// In a register the number of a part, which the record may lack.
    fn push_part_number(&mut self, image: &mut Vec<u8>, register: u8) -> Result<(), AllocError> {
        let number = match self.below(8) {
            0 => slot(0xbf, register, self.register(), 0, 0),
            1 => slot(0xb7, register, 0, 0, self.below(40) as i32),
            2..=4 => slot(0xb7, register, 0, 0, 0),
            _ => slot(0xb7, register, 0, 0, self.below(8) as i32),
        };
        put(image, number)
    }

    /// In a register a small number, or any.
    fn push_number(&mut self, image: &mut Vec<u8>, register: u8) -> Result<(), AllocError> {
        let number = match self.below(8) {
            0 => slot(0xbf, register, self.register(), 0, 0),
            1 => slot(0xb7, register, 0, 0, self.immediate()),
            _ => slot(0xb7, register, 0, 0, self.below(20) as i32),
        };
        put(image, number)
    }

    /// A copy of up to eight bytes of a part to the stack, zeros where the part lacks them.
    fn push_bytes(&mut self, image: &mut Vec<u8>) -> Result<(), AllocError> {
        self.push_address(image, 1, BYTES_AT)?;
        self.push_place(image)?;
        put(image, slot(0xb7, 3, 0, 0, 1 + self.below(8) as i32))?;
        self.push_part_number(image, 4)?;
        put(image, slot(0x85, 0, 0, 0, 14))
    }

    /// The address of those bytes, and how many of them there shall be.
    fn push_named(
        &mut self,
        image: &mut Vec<u8>,
        address: u8,
        count: u8,
    ) -> Result<(), AllocError> {
        self.push_address(image, address, BYTES_AT)?;
        put(image, slot(0xb7, count, 0, 0, self.below(4) as i32))
    }

    /// What the helper with a number takes.
    fn push_arguments(&mut self, image: &mut Vec<u8>, helper: u8) -> Result<(), AllocError> {
        match helper {
            15 | 16 => {
                self.push_part_number(image, 1)?;
                self.push_number(image, 2)?;
                self.push_named(image, 3, 4)
            }
            17 => {
                self.push_part_number(image, 1)?;
                self.push_number(image, 2)?;
                self.push_number(image, 3)
            }
            19 => self.push_named(image, 1, 2),
            20 => {
                put(image, slot(0xb7, 1, 0, 0, self.below(3) as i32))?;
                self.push_part_number(image, 2)?;
                self.push_number(image, 3)?;
                self.push_number(image, 4)
            }
            21 => {
                put(image, slot(0xb7, 1, 0, 0, self.below(3) as i32))?;
                self.push_number(image, 2)?;
                self.push_number(image, 3)?;
                self.push_named(image, 4, 5)
            }
            22 => {
                self.push_named(image, 1, 2)?;
                self.push_named(image, 3, 4)
            }
            _ => self.push_part_number(image, 1),
        }
    }

    /// Up to sixteen headers are added, with the same bytes as key and as value.
    fn push_headers(&mut self, image: &mut Vec<u8>) -> Result<(), AllocError> {
        let headers = self.below(17);
        for _ in 0..headers {
            self.push_arguments(image, 22)?;
            put(image, slot(0x85, 0, 0, 0, 22))?;
        }
        Ok(())
    }

    /// A call of a helper over parts, whose answer goes to a register.
    fn push_part_call(&mut self, image: &mut Vec<u8>) -> Result<(), AllocError> {
        self.push_bytes(image)?;
        let helper = match 13 + self.below(10) as u8 {
            14 => 13,
            helper => helper,
        };
        if helper == 22 && self.below(4) == 0 {
            self.push_headers(image)?;
        }
        self.push_arguments(image, helper)?;
        put(image, slot(0x85, 0, 0, 0, i32::from(helper)))?;
        let dst = self.register();
        put(image, slot(0xbf, dst, 0, 0, 0))
    }

    /// Up to three of them.
    pub(crate) fn push_part_calls(&mut self, image: &mut Vec<u8>) -> Result<(), AllocError> {
        let calls = self.below(4);
        for _ in 0..calls {
            self.push_part_call(image)?;
        }
        Ok(())
    }
}
