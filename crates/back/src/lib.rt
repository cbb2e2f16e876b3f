// Reading a frame back into the strip that it shows.
#![tactic(auto)]

ghost use Rattle.std.specs.Prelude.{◌≡◌, true, false, ℕ, ◌+◌, ◌*◌, ◌/◌, ◌<◌, ◌≤◌, length, get_or, MatchOption};
ghost use Rattle.promises.specs.Written.{Filled};
ghost use Rattle.promises.specs.Told.{done};
ghost use Rattle.promises.specs.Order.{first_of};
ghost use Rattle.answer.specs.Told.{told_of};
ghost use Rattle.settings.specs.Fields.{graphics};
ghost use Rattle.settings.specs.Modes.{width};
ghost use Rattle.settings.specs.Refusals.{strip_length, frame_length};
ghost use Rattle.back.specs.Read.{value, read, read_byte};
ghost use Rattle.back.specs.Steps.{Shape};
ghost use Rattle.back.specs.Stray.{shows, stray, first_stray};
ghost use Rattle.back.specs.Back.{back_lengths, back_told, strip_back};

use answer::{Answer, Refusal};
use settings::{FRAME_LENGTH, Look};

// Gathering a strip's bytes off a frame: each element by its leftmost pixel.
// Kept as slices whose lengths each contract names: because each function asks for another part of these facts, and for the calls in `take` a struct would be no plainer.
// `Shape` is kept as a clause: because a trait with these constants, their ghost numbers and the law would be longer than the clause.

// The value of the element that shows a colour.
#[tactic(auto, unfolding(crate::specs::Read::value))]
fn value<const VALUES: usize>(c: u8) -> usize
    ensures { (result ≡ value VALUES c) × (result < 4) }
{
    if VALUES == 2 {
        usize::from(c != 8)
    } else {
        usize::from(c % 4)
    }
}

// The byte of which `COUNT` elements of `DOTS` dots start at pixel `at`.
// Kept with the frame and a place, here and in `line`: because `read`, which the contract of `read_back` rests on, reads at a place of the whole frame.
fn byte<const VALUES: usize, const COUNT: usize, const DOTS: usize>(frame: &[u8], at: usize) -> u8
    requires { Shape VALUES COUNT DOTS × (at + COUNT * DOTS ≤ length frame.now) }
    ensures { result ≡ read VALUES COUNT DOTS frame.now at }
{
    let mut v = 0;
    // Kept with an index: because the pixels that count lie `DOTS` apart from a place on, and `skip`, `step_by`, `take` and `fold` say that no plainer.
    for j in 0..COUNT {
        v = v * VALUES + value::<VALUES>(frame[at + j * DOTS]);
    }
    v as u8
}

// Reads the bytes of line n into the strip.
fn line<const VALUES: usize, const COUNT: usize, const DOTS: usize>(
    frame: &[u8],
    n: usize,
    strip: &mut [u8],
)
    requires { Shape VALUES COUNT DOTS × (n < 192) × (frame_length ≤ length frame.now) × (192 * (256 / (COUNT * DOTS)) ≤ length strip.old) }
    ensures { Filled (λ i. read VALUES COUNT DOTS frame.now (i * (COUNT * DOTS))) (n * (256 / (COUNT * DOTS))) (n * (256 / (COUNT * DOTS)) + 256 / (COUNT * DOTS)) strip.old strip.new }
{
    let breadth = COUNT * DOTS;
    let width = 256 / breadth;
    let at = n * width;
    for (c, gathered) in strip[at..at + width].iter_mut().enumerate() {
        *gathered = byte::<VALUES, COUNT, DOTS>(frame, n * 256 + c * breadth);
    }
}

// Reads the bytes of all 192 lines into the strip.
fn lines<const VALUES: usize, const COUNT: usize, const DOTS: usize>(frame: &[u8], strip: &mut [u8])
    requires { Shape VALUES COUNT DOTS × (frame_length ≤ length frame.now) × (192 * (256 / (COUNT * DOTS)) ≤ length strip.old) }
    ensures { Filled (λ i. read VALUES COUNT DOTS frame.now (i * (COUNT * DOTS))) 0 (192 * (256 / (COUNT * DOTS))) strip.old strip.new }
{
    // Kept as a loop over places: because with `chunks_exact_mut` it stays open what the strip is afterwards.
    for n in 0..192 {
        line::<VALUES, COUNT, DOTS>(frame, n, strip);
    }
}

// Reads the strip that a frame shows: the four shapes of RG6; CG2, CG3 and CG6; RG1, RG2 and RG3; CG1.
fn gather(look: Look, frame: &[u8], strip: &mut [u8])
    requires { (graphics look ≡ true) × (frame_length ≤ length frame.now) × (192 * width look ≤ length strip.old) }
    ensures { Filled (read_byte look frame.now) 0 (192 * width look) strip.old strip.new }
{
    let bits = settings::gm(look) % 2 == 1;
    if settings::width(look) == 32 {
        if bits {
            lines::<2, 8, 1>(frame, strip);
        } else {
            lines::<4, 4, 2>(frame, strip);
        }
    } else {
        if bits {
            lines::<2, 8, 2>(frame, strip);
        } else {
            lines::<4, 4, 4>(frame, strip);
        }
    }
}

// Stray pixels: a frame is without one if it is the drawing of some strip, and is searched for the first only if it is not.

// Whether the mode and CSS show a colour.
fn shows(look: Look, c: u8) -> bool
    ensures { result ≡ shows look c }
{
    let css = settings::css(look);
    if settings::gm(look) % 2 == 1 {
        return c == 4 * css || c == 8;
    }
    c / 4 == css
}

// Whether pixel k is stray.
fn stray_at(look: Look, frame: &[u8], k: usize) -> bool
    requires { (graphics look ≡ true) × (k < length frame.now) }
    ensures { result ≡ stray look frame.now k }
{
    let c = frame[k];
    let left = frame[k - k % settings::dots(look)];
    !shows(look, c) || c != left
}

// The first stray pixel, looked for one by one.
fn search(look: Look, frame: &[u8]) -> Option<usize>
    requires { (graphics look ≡ true) × (frame_length ≤ length frame.now) }
    ensures { MatchOption result (first_stray look frame.now ≡ frame_length) (λ k. (first_stray look frame.now ≡ k) × (k < frame_length)) }
{
    (0..FRAME_LENGTH).find(|k| stray_at(look, frame, *k))
}

// The first stray pixel. Any strip may be lent; with the one read off the frame nothing is searched where no pixel is stray.
fn first_stray(look: Look, strip: &[u8], frame: &[u8]) -> Option<usize>
    requires { (look.pins ≤ 63) × (graphics look ≡ true) × (192 * width look ≤ length strip.now) × (frame_length ≤ length frame.now) }
    ensures { MatchOption result (first_stray look frame.now ≡ frame_length) (λ k. (first_stray look frame.now ≡ k) × (k < frame_length)) }
{
    let mut picture = [0u8; FRAME_LENGTH];
    // in graphics no font is read: the strip stands in its place
    let _ = frame::draw(look, strip, strip, &mut picture);
    if frame[..FRAME_LENGTH] == picture[..] {
        return None;
    }
    search(look, frame)
}

// Reading back.

// The answer, by the look and the two lengths.
fn length_answer(look: Look, strip: usize, frame: usize) -> Answer
    ensures { told_of result ≡ first_of (back_lengths look strip frame) (done (strip_length look)) }
{
    settings::pins_above(look)?;
    settings::text_back(look)?;
    settings::short_strip(look, strip)?;
    settings::short_frame(frame)?;
    Ok(settings::strip_length(look))
}

// The work, where no length is refused: the bytes are read into an array here, and stored in the strip once it is known that no pixel is stray.
fn take(look: Look, frame: &[u8], strip: &mut [u8]) -> Answer
    requires { (first_of (back_lengths look (length strip.old) (length frame.now)) (done (strip_length look))).number ≡ 0 }
    ensures answer { told_of result ≡ back_told look frame.now strip.old }
    ensures stored { strip.new ≡ strip_back look frame.now strip.old }
{
    let mut bytes = [0u8; 6144];
    gather(look, frame, &mut bytes);
    if let Some(k) = first_stray(look, &bytes, frame) {
        return Err(Refusal::Stray(k));
    }
    let length = settings::strip_length(look);
    buffer::store(&bytes, length, strip);
    Ok(length)
}

// Reads a frame back: done with the strip's length, and what the frame shows in that many bytes of the strip, or refused with the strip as it was.
pub fn read_back(look: Look, frame: &[u8], strip: &mut [u8]) -> Answer
    ensures answer { told_of result ≡ back_told look frame.now strip.old }
    ensures strip { strip.new ≡ strip_back look frame.now strip.old }
{
    length_answer(look, strip.len(), frame.len())?;
    take(look, frame, strip)
}
