// The strip of fetched bytes, and how many bytes of the image it touched.
#![tactic(auto)]

ghost use Rattle.std.specs.Prelude.{◌≡◌, ℕ, ◌+◌, ◌-◌, ◌*◌, ◌%◌, ◌<◌, ◌≤◌, true, false, ◌⊎◌, length, slice_index, Err, IsOk, MatchOption};
ghost use Rattle.promises.specs.Told.{done};
ghost use Rattle.promises.specs.Order.{first_of};
ghost use Rattle.promises.specs.Written.{Filled};
ghost use Rattle.answer.specs.declared.Refusal.TheVariants.{NotFitted};
ghost use Rattle.answer.specs.Told.{told_of, Says};
ghost use Rattle.settings.specs.Modes.{width};
ghost use Rattle.settings.specs.Banks.{suited, image_place, missing};
ghost use Rattle.settings.specs.Refusals.{strip_length};
ghost use Rattle.counter.specs.Steps.{one_stretch};
ghost use Rattle.strip.specs.Fetch.{fetched_byte, first_missing, not_fitted, fetch_order, fetch_told, strip_after};
ghost use Rattle.strip.specs.Steps.{rows_left, Fitted};
ghost use Rattle.strip.specs.Touched.{touched_bytes, fetch_touched};

use answer::{Answer, Refusal};
use settings::Settings;

// The active lines of a frame.
const LINES: usize = 192;

// Whether an image of this length lacks the bank of an address.
#[tactic(auto, unfolding(settings::specs::Banks::missing), using(settings::proofs::Banks::bit_lt, settings::proofs::Banks::bank_shifted))]
fn lacks(settings: Settings, size: usize, address: u16) -> bool
    ensures { result ≡ missing settings size address }
{
    let bit = settings::bank_bit(settings);
    let bank = (usize::from(address) >> bit) % 2;
    size <= bank << bit
}

// How many rows of 32 places lie between an address and the next bank.
#[tactic(auto, using(settings::proofs::Banks::bit_lt, settings::proofs::Banks::bank_some, settings::proofs::Banks::one_shifted))]
fn rows_left(settings: Settings, address: u16) -> usize
    ensures { result ≡ rows_left settings address }
{
    let size = 1 << settings::bank_bit(settings);
    (size - usize::from(address) % size) / 32
}

// The strip index of the first fetch from a bank that an image of this length lacks. No fetch is made for it: B5-B15 tell the bank,
// and every row of 32 places lasts as long as the first.
fn first_missing(settings: Settings, size: usize) -> Option<usize>
    ensures { MatchOption result (first_missing settings size ≡ strip_length settings.look) (λ k. (first_missing settings size ≡ k) × (k < strip_length settings.look)) }
{
    let total = settings::strip_length(settings.look);
    let start = counter::start(settings);
    // Where the last bank is fitted, every bank is.
    if !lacks(settings, size, 65535) {
        return None;
    }
    if lacks(settings, size, start.address) {
        return Some(0);
    }
    let first = rows_left(settings, start.address) * counter::row_lasts(settings);
    if first < total { Some(first) } else { None }
}

// 17: a fetch from a bank not fitted, by the index of the first.
fn not_fitted_at(first: Option<usize>) -> Result<(), Refusal>
    ensures { MatchOption first (IsOk result) (λ k. result ≡ Err (NotFitted k)) }
{
    match first {
        Some(k) => Err(Refusal::NotFitted(k)),
        None => Ok(()),
    }
}

// The same, by the settings and the length of the image: for both at once. Fetching asks the two functions that it is made of: where it
// calls this, SAM mode 0 takes 3 % longer and mode 1 with 16 bytes a line a tenth longer, while modes 1 and 3 with 32 take a quarter less.
pub fn not_fitted(settings: Settings, size: usize) -> Result<(), Refusal>
    ensures { Says (not_fitted settings size) result }
{
    not_fitted_at(first_missing(settings, size))
}

// The place in an image of an address whose bank is fitted: the lengths are powers of two, and the bits below are kept.
fn place(settings: Settings, size: usize, address: u16) -> usize
    requires { (suited settings size ≡ true) × (missing settings size address ≡ false) }
    ensures { result ≡ image_place settings address }
{
    usize::from(address) & (size - 1)
}

// A run: the 16 bytes of a slice from the place `from` on. A local array overlaps nothing lent, so it is filled by one move.
// Kept as loops, here and in `put_run`: `copy_from_slice` looks at each run whether the two overlap, and SAM mode 0 takes four times as long.
fn run_at(bytes: &[u8], from: usize) -> [u8; 16]
    requires { from + 16 ≤ length bytes.now }
    ensures { (j : ℕ) → j < 16 → slice_index result j ≡ slice_index bytes.now (from + j) }
{
    let mut run = [0u8; 16];
    for (j, byte) in run.iter_mut().enumerate() {
        *byte = bytes[from + j];
    }
    run
}

// Puts a run into 16 places of the strip.
fn put_run(run: &[u8; 16], places: &mut [u8])
    requires { length places.old ≡ 16 }
    ensures { (j : ℕ) → j < 16 → slice_index places.new j ≡ slice_index run.now j }
{
    for (j, byte) in places.iter_mut().enumerate() {
        *byte = run[j];
    }
}

// Reads an aligned run of 16 bytes of the image, from the place `from` on, into the strip, from `at` on. Hands back how many bytes it read.
// Kept with places beside the slices, here and in `run_at`, `read_line` and `repeat_line`: because the laws of the walk that join them name places of the whole
// image and strip, and what a part promises would have to be moved to those at every call.
fn read_run(image: &[u8], from: usize, strip: &mut [u8], at: usize) -> usize
    requires { (from + 16 ≤ length image.now) × (at + 16 ≤ length strip.old) }
    ensures value { result ≡ 16 }
    ensures filled { Filled (λ k. slice_index image.now (from + (k - at))) at (at + 16) strip.old strip.new }
{
    let run = run_at(image, from);
    put_run(&run, &mut strip[at..at + 16]);
    16
}

// Reads a line that is one stretch of `wide` places, one run or two, from the place `from` on, in the same way.
fn read_line(image: &[u8], from: usize, strip: &mut [u8], at: usize, wide: usize) -> usize
    requires { (from + wide ≤ length image.now) × (at + wide ≤ length strip.old) × ((wide ≡ 16) ⊎ (wide ≡ 32)) }
    ensures value { result ≡ wide }
    ensures filled { Filled (λ k. slice_index image.now (from + (k - at))) at (at + wide) strip.old strip.new }
{
    let first = read_run(image, from, strip, at);
    if wide == 16 {
        return first;
    }
    first + read_run(image, from + 16, strip, at + 16)
}

// Makes the lines behind the one at `at`, up to `end`, like it. No image is lent: these lines are made from the strip.
// Each run is that of the first line, and not of the line before, so that no load waits for a store.
// Kept as a `while`: over `(..).step_by(16)`, which tests twice a run, SAM mode 0 takes a quarter longer, and over the numbers of the runs mode 1 takes twice as long.
fn repeat_line(strip: &mut [u8], at: usize, wide: usize, end: usize)
    requires { ((wide ≡ 16) ⊎ (wide ≡ 32)) × (at % wide ≡ 0) × (end % wide ≡ 0) × (at + wide ≤ end) × (end ≤ length strip.old) }
    ensures { Filled (λ k. slice_index strip.old (at + k % wide)) (at + wide) end strip.old strip.new }
{
    let mut to = at + wide;
    while to < end {
        let run = run_at(strip, at + (to & (wide - 1)));
        put_run(&run, &mut strip[to..to + 16]);
        to += 16;
    }
}

// Fetches the frame where each line is one stretch: it is read once, and the lines that have its places are made from the strip.
// Hands back how many bytes of the image it read. Kept as a `while`: over `(0..LINES).step_by(lasts)`, which tests twice a stretch,
// SAM mode 1 takes a tenth longer.
// Kept with settings, image and strip as parameters, here and in `runs` and `all_lines`: because `fetch` lends all three once, and each
// method of a struct with the strip as `&mut` would take it apart again.
fn stretches(settings: Settings, image: &[u8], strip: &mut [u8]) -> usize
    requires { (suited settings (length image.now) ≡ true) × (192 * width settings.look ≤ length strip.old) × Fitted settings (length image.now) × (one_stretch settings ≡ true) }
    ensures value { result ≡ touched_bytes settings }
    ensures filled { Filled (fetched_byte settings image.now) 0 (192 * width settings.look) strip.old strip.new }
{
    let size = image.len();
    let wide = settings::width(settings.look);
    let lasts = counter::line_lasts(settings);
    let step = counter::line_step(settings);
    let start = counter::start(settings);
    let mut address = start.address;
    let mut touched = 0;
    let mut n = 0;
    while n < LINES {
        let from = place(settings, size, address);
        touched += read_line(image, from, strip, n * wide, wide);
        repeat_line(strip, n * wide, wide, (n + lasts) * wide);
        address = address.wrapping_add(step);
        n += lasts;
    }
    touched
}

// The same where it is not: two runs a line, each fetched X times on through the lines' ends, so that no line has the places of the one before.
// Kept by the number of the run: because `chunks_exact_mut` and `as_chunks_mut` say nothing of what the strip ends as.
fn runs(settings: Settings, image: &[u8], strip: &mut [u8]) -> usize
    requires { (suited settings (length image.now) ≡ true) × (192 * width settings.look ≤ length strip.old) × Fitted settings (length image.now) × (one_stretch settings ≡ false) }
    ensures value { result ≡ touched_bytes settings }
    ensures filled { Filled (fetched_byte settings image.now) 0 (192 * width settings.look) strip.old strip.new }
{
    let size = image.len();
    let mut counter = counter::start(settings);
    let mut touched = 0;
    for run in 0..LINES * 2 {
        let from = place(settings, size, counter.address);
        touched += read_run(image, from, strip, run * 16);
        counter = counter.carry(settings);
    }
    touched
}

// The 192 lines, however they lie.
fn all_lines(settings: Settings, image: &[u8], strip: &mut [u8]) -> usize
    requires { (suited settings (length image.now) ≡ true) × (192 * width settings.look ≤ length strip.old) × Fitted settings (length image.now) }
    ensures value { result ≡ touched_bytes settings }
    ensures filled { Filled (fetched_byte settings image.now) 0 (192 * width settings.look) strip.old strip.new }
{
    if counter::one_stretch(settings) {
        return stretches(settings, image, strip);
    }
    runs(settings, image, strip)
}

// The answer, by the settings and the lengths of what is lent.
fn length_answer(settings: Settings, image: usize, strip: usize) -> Answer
    ensures { told_of result ≡ first_of (fetch_order settings image strip) (done (strip_length settings.look)) }
{
    let look = settings.look;
    settings::pins_above(look)?;
    settings::fast_rate(settings)?;
    settings::image_length(image)?;
    settings::not_suited(settings, image)?;
    settings::short_strip(look, strip)?;
    not_fitted_at(first_missing(settings, image))?;
    Ok(settings::strip_length(look))
}

// What fetching answers, and how many bytes of the image it touched.
// It stays a struct, with the count beside the answer: because clause `count` of `fetch` promises the count of a refused call too.
#[derive(Clone, Copy)]
pub struct Fetching {
    pub answer: Answer,
    pub touched: usize,
}

// Fetches the strip of a frame: 192 lines of W bytes, in fetched order, repeats included.
pub fn fetch(settings: Settings, image: &[u8], strip: &mut [u8]) -> Fetching
    ensures answer { told_of result.answer ≡ fetch_told settings image.now strip.old }
    ensures count { result.touched ≡ fetch_touched settings image.now strip.old }
    ensures bytes { strip.new ≡ strip_after settings image.now strip.old }
{
    match length_answer(settings, image.len(), strip.len()) {
        Ok(length) => Fetching {
            touched: all_lines(settings, image, strip),
            answer: Ok(length),
        },
        Err(refusal) => Fetching {
            answer: Err(refusal),
            touched: 0,
        },
    }
}
