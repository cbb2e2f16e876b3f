// Tries chips of each k, both ways, with one bank and two, and each refusal. Prints a line for each call.
#![tactic(auto)]

use answer::Answer;
use std::io;
use trial::{Answered, Output, byte_at, cut, lay, mark, sum, unchanged_from};

// k, how many bytes are lent, and how many there is room for.
type Row = (usize, usize, usize);

// Each k, one bank and two.
const IMAGES: [Row; 5] = [
    (6, 4096, 4096),
    (6, 8192, 65600),
    (7, 16384, 16384),
    (7, 32768, 40000),
    (8, 65536, 65536),
];

const CHIPS: [Row; 5] = [
    (6, 4096, 4097),
    (6, 8192, 8192),
    (7, 16384, 65600),
    (7, 32768, 32768),
    (8, 65536, 65600),
];

// The refusals in their order.
const NO_IMAGES: [Row; 12] = [
    (5, 1024, 65600),
    (9, 65536, 65600),
    (0, 0, 0),
    (18446744073709551615, 4096, 65600),
    (6, 4095, 65600),
    (6, 12288, 65600),
    (6, 16384, 65600),
    (7, 4096, 65600),
    (8, 131072, 65600),
    (8, 32768, 65600),
    (6, 4095, 0),
    (6, 4096, 4095),
];

const NO_CHIPS: [Row; 4] = [
    (8, 131072, 65600),
    (7, 49152, 65600),
    (7, 32768, 32767),
    (8, 65536, 65535),
];

// == Calls: each way, with every buffer held against what it was before.

// Transposes by an operation, named, and prints the answer, some bytes, the sum of all of them, and from where on the buffer was kept.
fn transposed<F: Fn(usize, &[u8], &mut [u8]) -> Answer>(
    rt: &impl Print,
    name: &str,
    row: Row,
    bytes: &[u8],
    operation: &F,
) -> io::Result<()>
    requires { F.IsAlwaysCallable operation.now }
{
    let (k, lent, size) = row;
    let mut buffer = [0u8; 65600];
    mark(&mut buffer);
    let n = size.min(buffer.len());
    let told = Answered(operation(k, cut(bytes, lent), &mut buffer[..n]));
    print!(rt; "{name} k {k} lent {lent} room {size}: {told}, bytes")?;
    for place in [1, 64, 300, 4097] {
        print!(rt; " {:02X}", byte_at(&buffer, place))?;
    }
    println!(rt;
        ", sum {}, kept from {}",
        sum(&buffer),
        unchanged_from(&buffer)
    )
}

// Transposes by an operation, named, for each of some rows.
fn transposed_each<F: Fn(usize, &[u8], &mut [u8]) -> Answer>(
    rt: &impl Print,
    name: &str,
    rows: &[Row],
    bytes: &[u8],
    operation: F,
) -> io::Result<()>
    requires { F.IsAlwaysCallable operation }
{
    for &row in rows {
        transposed(rt, name, row, bytes, &operation)?;
    }
    Ok(())
}

// Two banks, brought to an image and back to the chips: the bytes come out as they were.
fn twice(rt: &impl Print, bytes: &[u8]) -> io::Result<()> {
    let mut image = [0u8; 8192];
    let mut again = [0u8; 8192];
    let _ = transpose::to_image(6, cut(bytes, 8192), &mut image);
    let _ = transpose::to_chip(6, &image, &mut again);
    println!(rt;
        "8192 bytes sum {}, as an image {}, and back {}",
        sum(cut(bytes, 8192)),
        sum(&image),
        sum(&again)
    )
}

// Bytes that tell their places: no two rows or columns of a bank are alike.
fn main(rt: HostRuntime) -> io::Result<()> {
    let rt = Output { rt };
    let mut bytes = [0u8; 131072];
    lay(&mut bytes, 0, 1, 61);
    transposed_each(&rt, "to image", &IMAGES, &bytes, transpose::to_image)?;
    transposed_each(&rt, "to chip", &CHIPS, &bytes, transpose::to_chip)?;
    transposed_each(&rt, "to image", &NO_IMAGES, &bytes, transpose::to_image)?;
    transposed_each(&rt, "to chip", &NO_CHIPS, &bytes, transpose::to_chip)?;
    twice(&rt, &bytes)
}
