//! How the table of solutions hashes their numbers.
ghost use Rattle.std.specs.Prelude.{◌+◌, ◌*◌, ◌/◌, ◌%◌, ◌^◌, bit_and, bit_or, if◌then◌else◌, length, nat_eq};
ghost use Rattle.std.specs.Int.{w32, from_le_bytes};

use std::hash::Hasher;

/// The golden ratio's part of 2^64, by which a product's highest bits spread numbers in a row (Knuth 1973, multiplicative
/// hashing).
const MULTIPLIER: u64 = 0x9e37_79b9_7f4a_7c15;

/// Hashes solutions so that those of one node, with entities in a row, stand in a row in the index of an `IndexMap`. It
/// chooses a group of slots by a hash's low bits: there each node has a place of its own, from which its entities count
/// on. It tells the slots of a group apart by the highest 8 of 32, which are mixed of both numbers. So solutions that are
/// found in a row are looked up along the memory, and not all over it.
#[derive(Clone, Copy, Default)]
pub struct SolvedHasher {
    // The node's number, and below it the entity's, in 32 bits each.
    numbers: u64,
}

impl Hasher for SolvedHasher {
    ghost write = { λ h bytes. record h {
      numbers = bit_or (h.numbers * 2 ^ 32 % 2 ^ 64) (if nat_eq (length bytes) 4 then from_le_bytes w32 bytes else 0);
    } };

    ghost finish = { λ h. bit_or
        (bit_and ((h.numbers / 2 ^ 32 * 0x9e37_79b9_7f4a_7c15 % 2 ^ 64 / 2 ^ 40 + h.numbers) % 2 ^ 64) 0xff_ffff)
        (h.numbers * 0x9e37_79b9_7f4a_7c15 % 2 ^ 64 / 2 ^ 56 * 2 ^ 24 % 2 ^ 64) };

    #[inline(always)]
    fn finish(&self) -> u64 {
        let first = (self.numbers >> 32).wrapping_mul(MULTIPLIER) >> 40;
        let place = first.wrapping_add(self.numbers) & 0xff_ffff;
        let mixed = self.numbers.wrapping_mul(MULTIPLIER) >> 56;
        place | mixed << 24
    }

    #[inline(always)]
    fn write(&mut self, bytes: &[u8]) {
        let number = match <[u8; 4]>::try_from(bytes) {
            Ok(bytes) => u32::from_le_bytes(bytes),
            Err(_other_length) => 0,
        };
        self.numbers = self.numbers << 32 | number as u64;
    }
}
