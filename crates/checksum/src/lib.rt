// The two checksums of a PNG file: CRC-32 of a chunk, and Adler-32 of what a zlib stream holds.
#![tactic(auto)]

ghost use Rattle.std.specs.Prelude.{◌≡◌, ◌+◌, ◌*◌, ◌%◌, ◌<◌, ◌≤◌, length, get_or};
ghost use Rattle.std.specs.List.{fold};
ghost use Rattle.checksum.specs.Crc.{crc_bit, crc_bits, crc_byte, crc};
ghost use Rattle.checksum.specs.Adler.{adler};
ghost use Rattle.checksum.specs.Sliced.{sliced, Stored};
ghost use Rattle.checksum.specs.Sums.{sums_byte};

// The polynomial of the CRC, the lowest power in the highest bit.
const POLYNOMIAL: u32 = 0xedb8_8320;
// All ones: the register begins with them, and is complemented at the end.
const ONES: u32 = u32::MAX;
// The modulus of Adler's sums, the greatest prime below 65,536.
const MODULUS: u32 = 65521;
// How many bytes are summed before the sums are reduced: few enough that no sum passes 32 bits.
const BLOCK: usize = 2048;

// The register after one bit.
#[tactic(auto, using(crate::proofs::Crcs::bit_odd, crate::proofs::Crcs::bit_even))]
fn crc_bit(c: u32) -> u32
    ensures { result ≡ crc_bit c }
{
    if c % 2 == 1 {
        (c >> 1) ^ POLYNOMIAL
    } else {
        c >> 1
    }
}

// The register after eight bits.
fn eight_bits(start: u32) -> u32
    ensures { result ≡ crc_bits 8 start }
{
    (0..8u32).fold(start, |c, _| crc_bit(c))
}

// The first table, bit by bit, and nothing behind it yet.
fn first_table() -> [u32; 1024]
    ensures { Stored 256 result }
{
    let mut entries = [0u32; 1024];
    for (n, entry) in entries[..256].iter_mut().enumerate() {
        *entry = eight_bits(n as u32);
    }
    entries
}

// Four tables of 256 entries in one, by which four bytes are summed at once.
#[derive(Drop)]
struct Tables {
    entries: [u32; 1024],
    ghost stored: { Stored 1024 entries },
}

impl Tables {
    // The first table is made by itself, and in the others a byte more behind is a step by it: one loop for all takes nearly twice as long.
    // Kept as a loop over places: because each entry is made from those before it.
    fn new() -> Tables {
        let mut entries = first_table();
        for n in 256..1024 {
            let x = entries[n - 256];
            entries[n] = (x >> 8) ^ entries[(x % 256) as usize];
        }
        Tables { entries }
    }

    // The entry for the lowest byte of x, with so many bytes behind it.
    fn entry(&self, behind: usize, x: u32) -> u32
        requires { behind < 4 }
        ensures { result ≡ crc_bits (8 * (behind + 1)) (x % 256) }
    {
        self.entries[behind * 256 + (x % 256) as usize]
    }

    // The register after a byte more.
    fn byte(&self, c: u32, b: u8) -> u32
        ensures { result ≡ crc_byte c b }
    {
        let x = c ^ u32::from(b);
        (x >> 8) ^ self.entry(0, x)
    }

    // The register after four bytes more, each by a table of its own.
    fn four(&self, c: u32, bytes: &[u8; 4]) -> u32
        ensures { result ≡ fold crc_byte c bytes.now }
    {
        let x = c ^ u32::from_le_bytes(*bytes);
        (self.entry(0, x >> 24) ^ self.entry(1, x >> 16))
            ^ (self.entry(2, x >> 8) ^ self.entry(3, x))
    }

    // The register after fours of bytes more.
    fn fours(&self, c: u32, fours: &[[u8; 4]]) -> u32
        ensures { result ≡ fold (λ c four. fold crc_byte c four) c fours.now }
    {
        fours.iter().fold(c, |c, four| self.four(c, four))
    }

    // The register after bytes more, one at a time.
    fn rest(&self, c: u32, bytes: &[u8]) -> u32
        ensures { result ≡ fold crc_byte c bytes.now }
    {
        bytes.iter().fold(c, |c, b| self.byte(c, *b))
    }
}

// The CRC-32 of the bytes. The tables are made at each call, which the bytes of a picture soon repay.
pub fn crc(bytes: &[u8]) -> u32
    ensures { result ≡ crc (λ k. get_or bytes.now k 0) (length bytes.now) }
{
    let tables = Tables::new();
    let (fours, rest) = bytes.as_chunks::<4>();
    tables.rest(tables.fours(ONES, fours), rest) ^ ONES
}

// The two sums of Adler-32, each below the modulus: that of the bytes, and that of those sums.
#[derive(Clone, Copy)]
struct Sums {
    low: u32,
    high: u32,
    ghost reduced: { (low < 65521) × (high < 65521) },
}

impl Sums {
    // Those of no bytes.
    fn new() -> Sums
        ensures { (result.low ≡ 1) × (result.high ≡ 0) }
    {
        Sums { low: 1, high: 0 }
    }

    // Those after a block more, reduced once.
    fn after(self, block: &[u8]) -> Sums
        requires { length block.now ≤ 2048 }
        ensures { (result.low, result.high) ≡ fold sums_byte (self.low, self.high) block.now }
    {
        // Kept as a loop: because in a `fold` it stays open that the two sums fit 32 bits.
        let mut low = self.low;
        let mut high = self.high;
        for b in block {
            low += u32::from(*b);
            high += low;
        }
        Sums {
            low: low % MODULUS,
            high: high % MODULUS,
        }
    }
}

// The Adler-32 of the bytes.
pub fn adler(bytes: &[u8]) -> u32
    ensures { result ≡ adler (λ k. get_or bytes.now k 0) (length bytes.now) }
{
    let (blocks, rest) = bytes.as_chunks::<BLOCK>();
    let mut sums = Sums::new();
    for block in blocks {
        sums = sums.after(block);
    }
    sums = sums.after(rest);
    sums.high * 65536 + sums.low
}
