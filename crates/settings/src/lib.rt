// What is read off a control word and a pin byte: the SAM's fields, the video chip's pins, and the mode they name.
#![tactic(auto)]

ghost use Rattle.std.specs.Prelude.{◌≡◌, ◌<◌, slice_index};
ghost use Rattle.promises.specs.Choose.{choose};
ghost use Rattle.answer.specs.Told.{Says};
ghost use Rattle.settings.specs.Fields.{bits, video_mode, offset, fast, memory, graphics, external, gm, css};
ghost use Rattle.settings.specs.Banks.{bank_bit, full_size, suited};
ghost use Rattle.settings.specs.Refusals.{image_fits, strip_length, pins_above, text_back, fast_rate, image_length, not_suited, font_length, short_strip, short_frame};
ghost use Rattle.settings.specs.Modes.{width, dots, border, font_size, mode_name, named};

use answer::Refusal;

// The look of a frame: the pin byte, fixed for a frame.
// Kept with free functions in place of methods, as `Settings` is: because the list of operations in claims names them so, as `settings::css`.
#[derive(Clone, Copy)]
pub struct Look {
    pub pins: u8,
}

// The fetch rule: what a line's end counts where it clears a set B4. Under rule 1 nothing, under rule 2 the Y divider, as where B4 falls.
#[derive(Clone, Copy)]
pub enum Rule {
    One,
    Two,
}

// All that decides a frame but its bytes: the SAM's control word, the look, and the fetch rule.
#[derive(Clone, Copy)]
pub struct Settings {
    pub word: u16,
    pub look: Look,
    pub rule: Rule,
}

// A mode's name: the first `len` bytes, the rest 0.
// Kept as bytes and a length: because `named`, in the promise of `mode_name`, fixes all three bytes, and the library takes no allocator.
#[derive(Clone, Copy)]
pub struct Name {
    pub bytes: [u8; 3],
    pub len: usize,
}

// The length of a frame: 192 lines of 256 pixels.
pub const FRAME_LENGTH: usize = 49152;

// By GM2-GM0. Kept as tables beside one another: because `width`, `dots` and `mode_name`, in the promises of these functions, each read a list of their own.
const WIDTHS: [usize; 8] = [16, 16, 32, 16, 32, 16, 32, 32];

const DOTS: [usize; 8] = [4, 2, 2, 2, 2, 2, 2, 1];

const KINDS: [u8; 8] = [b'C', b'R', b'C', b'R', b'C', b'R', b'C', b'R'];

const DIGITS: [u8; 8] = [b'1', b'1', b'2', b'2', b'3', b'3', b'6', b'6'];

// `count` bits of `word` from bit `at` on: every field of the word and of the pin byte is read so.
#[tactic(auto, using(crate::proofs::Masks::masked))]
fn field(word: u16, at: u16, count: u16) -> u16
    requires { (at < 16) × (count < 16) }
    ensures { result ≡ bits word at count }
{
    let mask = (1 << count) - 1;
    (word >> at) & mask
}

// V2-V0, the SAM's video mode.
pub fn video_mode(settings: Settings) -> usize
    ensures { result ≡ video_mode settings }
{
    usize::from(field(settings.word, 0, 3))
}

// F6-F0, the start of the window in steps of 512 bytes.
pub fn offset(settings: Settings) -> u16
    ensures { result ≡ offset settings }
{
    field(settings.word, 3, 7)
}

// R1: the fast rate, at which there is no display.
fn fast(settings: Settings) -> bool
    ensures { result ≡ fast settings }
{
    field(settings.word, 12, 1) == 1
}

// M1, M0, the memory's size.
fn memory(settings: Settings) -> usize
    ensures { result ≡ memory settings }
{
    usize::from(field(settings.word, 13, 2))
}

// Which bit of an address is its bank. With M1 set it is one past the last, which no address has.
pub fn bank_bit(settings: Settings) -> usize
    ensures { result ≡ bank_bit settings }
{
    match memory(settings) {
        0 => 12,
        1 => 14,
        _ => 16,
    }
}

// How long an image with every bank is.
fn full_size(settings: Settings) -> usize
    ensures { result ≡ full_size settings }
{
    match memory(settings) {
        0 => 8192,
        1 => 32768,
        _ => 65536,
    }
}

// `count` bits of the pin byte from bit `at` on.
fn pin(look: Look, at: u16, count: u16) -> u16
    requires { (at < 16) × (count < 16) }
    ensures { result ≡ bits look.pins at count }
{
    field(u16::from(look.pins), at, count)
}

// A/G: whether the mode is graphics.
pub fn graphics(look: Look) -> bool
    ensures { result ≡ graphics look }
{
    pin(look, 5, 1) == 1
}

// A/G and INT/EXT: whether the mode is text with external characters.
pub fn external(look: Look) -> bool
    ensures { result ≡ external look }
{
    !graphics(look) && pin(look, 4, 1) == 1
}

// GM2-GM0 as a number.
pub fn gm(look: Look) -> usize
    ensures { result ≡ gm look }
{
    usize::from(pin(look, 1, 3))
}

// CSS, which of two colour sets is shown.
pub fn css(look: Look) -> u8
    ensures { result ≡ css look }
{
    pin(look, 0, 1) as u8
}

// An entry of a table by GM2-GM0, where the mode is graphics, and the number of text else.
fn by_mode(look: Look, table: &[usize; 8], text: usize) -> usize
    ensures { result ≡ choose (graphics look) (slice_index table.now (gm look)) text }
{
    if graphics(look) {
        table[gm(look)]
    } else {
        text
    }
}

// W, the bytes a line.
#[tactic(auto, unfolding(crate::specs::Modes::width))]
pub fn width(look: Look) -> usize
    ensures { result ≡ width look }
{
    by_mode(look, &WIDTHS, 32)
}

// 192 × W, the length of a strip.
#[tactic(auto, using(crate::proofs::Widths::width_le))]
pub fn strip_length(look: Look) -> usize
    ensures { result ≡ strip_length look }
{
    192 * width(look)
}

// The dots per element; a text byte's dots stand for themselves.
#[tactic(auto, unfolding(crate::specs::Modes::dots))]
pub fn dots(look: Look) -> usize
    ensures { result ≡ dots look }
{
    by_mode(look, &DOTS, 1)
}

// The border's colour.
#[tactic(auto, unfolding(crate::specs::Modes::border))]
pub fn border(look: Look) -> u8
    ensures { result ≡ border look }
{
    if graphics(look) {
        return 4 * css(look);
    }
    // GM2, and then GM1
    if pin(look, 3, 1) == 0 {
        return 8;
    }
    if pin(look, 2, 1) == 1 {
        return 8;
    }
    7 * css(look)
}

// The mode's name, as a report gives it.
#[tactic(auto, unfolding(crate::specs::Modes::mode_name))]
pub fn mode_name(look: Look) -> Name
    ensures { result ≡ named (mode_name look) }
{
    let g = gm(look);
    if graphics(look) {
        return Name {
            bytes: [KINDS[g], b'G', DIGITS[g]],
            len: 3,
        };
    }
    if external(look) {
        return Name {
            bytes: [b'E', b'X', b'T'],
            len: 3,
        };
    }
    Name {
        bytes: [b'A', b'1' + (g % 4) as u8, 0],
        len: 2,
    }
}

// The checks of document 01's table by settings and lengths. Each is coded only here.

// 1: pin byte above 63.
pub fn pins_above(look: Look) -> Result<(), Refusal>
    ensures { Says (pins_above look) result }
{
    answer::refuse(63 < look.pins, Refusal::PinsAbove)
}

// 3: reading back with A/G = 0.
pub fn text_back(look: Look) -> Result<(), Refusal>
    ensures { Says (text_back look) result }
{
    answer::refuse(!graphics(look), Refusal::TextBack)
}

// 4: R1 = 1.
pub fn fast_rate(settings: Settings) -> Result<(), Refusal>
    ensures { Says (fast_rate settings) result }
{
    answer::refuse(fast(settings), Refusal::FastRate)
}

// Whether an image may have this length.
#[tactic(auto, unfolding(crate::specs::Refusals::image_fits))]
fn image_fits(length: usize) -> bool
    ensures { result ≡ image_fits length }
{
    matches!(length, 4096 | 8192 | 16384 | 32768 | 65536)
}

// 5: image length not 4,096, 8,192, 16,384, 32,768 or 65,536.
pub fn image_length(length: usize) -> Result<(), Refusal>
    ensures { Says (image_length length) result }
{
    answer::refuse(!image_fits(length), Refusal::ImageLength)
}

// Whether an image's length is suited to M1 and M0.
#[tactic(auto, unfolding(crate::specs::Banks::suited), using(crate::proofs::Banks::bit_lt, crate::proofs::Banks::one_shifted))]
fn suits(settings: Settings, length: usize) -> bool
    ensures { result ≡ suited settings length }
{
    let bank = 1 << bank_bit(settings);
    length == bank || length == full_size(settings)
}

// 16: image length not suited to M.
pub fn not_suited(settings: Settings, length: usize) -> Result<(), Refusal>
    ensures { Says (not_suited settings length) result }
{
    answer::refuse(!suits(settings, length), Refusal::NotSuited)
}

// How long the font is that text asks for.
#[tactic(auto, unfolding(crate::specs::Modes::font_size))]
fn font_size(look: Look) -> usize
    ensures { result ≡ font_size look }
{
    if external(look) { 3072 } else { 1152 }
}

// 6: A/G = 0 and font length not the one asked for.
pub fn font_length(look: Look, length: usize) -> Result<(), Refusal>
    ensures { Says (font_length look length) result }
{
    let wrong = !graphics(look) && length != font_size(look);
    answer::refuse(wrong, Refusal::FontLength)
}

// 7: strip shorter than 192 × W.
pub fn short_strip(look: Look, length: usize) -> Result<(), Refusal>
    ensures { Says (short_strip look length) result }
{
    answer::refuse(length < strip_length(look), Refusal::ShortStrip)
}

// 8: frame shorter than 49,152.
pub fn short_frame(length: usize) -> Result<(), Refusal>
    ensures { Says (short_frame length) result }
{
    answer::refuse(length < FRAME_LENGTH, Refusal::ShortFrame)
}
