//! Lines of memory, and the numbers in their 64 bytes.

ghost use Rattle.std.specs.Prelude.{◌≡◌, ◌≤◌, ◌<◌, ◌+◌, ◌*◌, ◌^◌, length, replicate, slice_index, slice_set};
ghost use Rattle.byteorder.specs.Endian.{little_number};
ghost use Rattle.sim_base.specs.LittleEndian.{loaded, with_bytes, stored};

use byteorder::{ByteOrder, LittleEndian};

/// The number of a line of memory: the address of its first byte, divided by 64.
pub type Line = u64;

/// What a line of memory holds.
#[derive(Clone, Copy, Debug, PartialEq, Eq)]
pub struct LineData {
    /// The bytes, from the lowest address on.
    pub bytes: [u8; 64],
}

impl LineData {
    /// A line of zeros.
    pub fn zeros() -> LineData
        ensures { result.bytes ≡ replicate 64 0 }
    {
        LineData { bytes: [0; 64] }
    }

    /// The number in the `size` bytes from `offset` on, little-endian as in RISC-V. `size` is at most 8.
    #[inline(always)]
    pub fn load(&self, offset: u8, size: u8) -> u64
        requires sized { size ≤ 8 }
        requires fits { offset + size ≤ 64 }
        ensures value { result ≡ loaded (slice_index self.now.bytes) offset size }
        ensures small { result < 2 ^ (8 * size) }
    {
        number_in(&self.bytes[offset as usize..], size as usize)
    }

    /// Writes a number's low `size` bytes from `offset` on, little-endian as in RISC-V. `size` is at most 8.
    #[inline(always)]
    pub fn store(&mut self, offset: u8, size: u8, value: u64)
        requires sized { size ≤ 8 }
        requires fits { offset + size ≤ 64 }
        ensures { self.new.bytes ≡ stored slice_set self.old.bytes offset size value }
    {
        let mut number = [0; 8];
        LittleEndian::write_u64(&mut number, value);
        let offset = offset as usize;
        match size {
            1 => self.set_all(offset, &number[..1]),
            2 => self.set_all(offset, &number[..2]),
            4 => self.set_all(offset, &number[..4]),
            8 => self.set_all(offset, &number),
            _ => self.set_all(offset, &number[..size as usize]),
        }
    }

    /// Writes bytes from an offset on.
    #[inline(always)]
    fn set_all(&mut self, offset: usize, bytes: &[u8])
        requires { offset + length bytes.now ≤ 64 }
        ensures { self.new.bytes ≡ with_bytes slice_set self.old.bytes offset bytes.now }
    {
        for (k, byte) in bytes.iter().enumerate() {
            self.bytes[offset + k] = *byte;
        }
    }
}

/// The number in the first `size` bytes, little-endian. `size` is at most 8.
#[inline(always)]
fn number_in(bytes: &[u8], size: usize) -> u64
    requires sized { size ≤ 8 }
    requires fits { size ≤ length bytes.now }
    ensures value { result ≡ little_number size bytes.now }
    ensures small { result < 2 ^ (8 * size) }
{
    match size {
        0 => 0,
        1 => u64::from(bytes[0]),
        2 => u64::from(LittleEndian::read_u16(bytes)),
        4 => u64::from(LittleEndian::read_u32(bytes)),
        8 => LittleEndian::read_u64(bytes),
        _ => LittleEndian::read_uint(bytes, size),
    }
}
