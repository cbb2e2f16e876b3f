// Images straight from the chips: an image from what was read off the chips, and back, bank by bank from one buffer into a second.
#![tactic(auto)]

ghost use Rattle.std.specs.Prelude.{◌≡◌, ℕ, ◌+◌, ◌*◌, ◌%◌, ◌<◌, ◌≤◌, length, get_or};
ghost use Rattle.promises.specs.Written.{Filled};
ghost use Rattle.answer.specs.Told.{told_of};
ghost use Rattle.transpose.specs.Chip.{chip_fits, chip_told, chip_after, transposed, transposed_byte};
ghost use Rattle.transpose.specs.Transposing.{Crossed};

use answer::{Answer, Refusal};

// Whether n places are one or two banks of chips with k address pins.
fn fits(k: usize, n: usize) -> bool
    ensures { result ≡ chip_fits k n }
{
    match k {
        6 => matches!(n, 4096 | 8192),
        7 => matches!(n, 16384 | 32768),
        8 => n == 65536,
        _ => false,
    }
}

// What is answered, from the number of pins and the lengths of what is lent.
#[tactic(auto, unfolding(crate::specs::Chip::chip_told))]
fn chip_answer(k: usize, lent: usize, room: usize) -> Answer
    ensures { told_of result ≡ chip_told k lent room }
{
    answer::refuse(!fits(k, lent), Refusal::OtherChip)?;
    answer::refuse(room < lent, Refusal::ShortDestination)?;
    Ok(0)
}

// Copies 64 bytes, which lie `side` apart, to 64 places in a row. A line of the cache has as many.
// Kept with `lent`, `side` and `room` beside each other, here and below: because each call lends other parts of the two, so that a struct of them would be made anew at every call.
// `side ≤ 256` is kept as a clause here and below: because a struct around this one number would be no plainer, as every clause counts with it.
fn piece(lent: &[u8], side: usize, room: &mut [u8])
    requires { (side ≤ 256) × (63 * side < length lent.now) × (length room.old ≡ 64) }
    ensures { (k : ℕ) → k < 64 → get_or room.new k 0 ≡ get_or lent.now (k * side) 0 }
{
    // Kept with an index: because with `zip` and `step_by` it stays open what the room holds afterwards.
    for (i, byte) in room.iter_mut().enumerate() {
        *byte = lent[i * side];
    }
}

// Crosses 64 columns of a bank: to transpose is to exchange rows and columns, so each row of the room gets 64 bytes.
fn columns(lent: &[u8], side: usize, column: usize, room: &mut [u8])
    requires bounds { (side ≤ 256) × (column + 64 ≤ side) }
    requires banks { (length lent.now ≡ side * side) × (length room.old ≡ side * side) }
    requires crossed { Crossed lent.now side column room.old }
    ensures { Crossed lent.now side (column + 64) room.new }
{
    // Kept as a loop over places, here and in `banks`: because with `chunks_exact_mut` it stays open what the room is afterwards.
    for row in 0..side {
        let at = row * side + column;
        piece(&lent[column * side + row..], side, &mut room[at..at + 64]);
    }
}

// Crosses a bank.
fn bank(lent: &[u8], side: usize, room: &mut [u8])
    requires bounds { (side ≤ 256) × (side % 64 ≡ 0) × (0 < side) }
    requires banks { (length lent.now ≡ side * side) × (length room.old ≡ side * side) }
    ensures { (k : ℕ) → k < side * side → get_or room.new k 0 ≡ get_or lent.now (transposed side k) 0 }
{
    // Kept as a loop over places: because 64 columns lie in every row of the bank, and are no part of it.
    for column in (0..side).step_by(64) {
        columns(lent, side, column, room);
    }
}

// Crosses the banks that are lent.
fn banks(lent: &[u8], side: usize, room: &mut [u8])
    requires bounds { (side ≤ 256) × (side % 64 ≡ 0) × (0 < side) }
    requires banks { (length lent.now % (side * side) ≡ 0) × (length lent.now ≤ length room.old) }
    ensures { Filled (transposed_byte side lent.now) 0 (length lent.now) room.old room.new }
{
    let size = side * side;
    // Kept as a loop over places: because with `chunks_exact_mut` it stays open what the room is afterwards, as in crate `picture`.
    for base in (0..lent.len()).step_by(size) {
        bank(&lent[base..base + size], side, &mut room[base..base + size]);
    }
}

// Crosses what is lent into the room, or refuses. Transposing twice gives the bytes back, so this serves both directions.
fn transposed(k: usize, lent: &[u8], room: &mut [u8]) -> Answer
    ensures answer { told_of result ≡ chip_told k (length lent.now) (length room.old) }
    ensures bytes { room.new ≡ chip_after k lent.now room.old }
{
    let done = chip_answer(k, lent.len(), room.len())?;
    let side = 1 << k;
    banks(lent, side, room);
    Ok(done)
}

// The image whose bytes were read off chips with k address pins, row by row.
pub fn to_image(k: usize, chip: &[u8], image: &mut [u8]) -> Answer
    ensures answer { told_of result ≡ chip_told k (length chip.now) (length image.old) }
    ensures bytes { image.new ≡ chip_after k chip.now image.old }
{
    transposed(k, chip, image)
}

// What chips with k address pins hold of an image, row by row.
pub fn to_chip(k: usize, image: &[u8], chip: &mut [u8]) -> Answer
    ensures answer { told_of result ≡ chip_told k (length image.now) (length chip.old) }
    ensures bytes { chip.new ≡ chip_after k image.now chip.old }
{
    transposed(k, image, chip)
}
