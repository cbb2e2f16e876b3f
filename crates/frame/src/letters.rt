// Text: the lit dots of every byte on each of its twelve rows, made once a frame, and tinted in its colour.
ghost use Rattle.std.specs.Prelude.{◌≡◌, false, ℕ, ◌+◌, ◌-◌, ◌*◌, ◌/◌, ◌%◌, ◌<◌, ◌≤◌, length, get_or};
ghost use Rattle.promises.specs.Written.{Filled};
ghost use Rattle.settings.specs.Fields.{graphics};
ghost use Rattle.settings.specs.Modes.{font_size};
ghost use Rattle.settings.specs.Refusals.{frame_length};
ghost use Rattle.pixel.specs.Dots.{one_bit, black};
ghost use Rattle.pixel.specs.Picture.{picture};
ghost use Rattle.pixel.specs.Text.{lower, pattern, inverted, letter, block, lit, ink};
ghost use Rattle.frame.specs.Steps.{typed};

use crate::tables::by_bits;
use settings::Look;

// Whether a letter is lower case: in internal text with GM0 = 1, below 32.
fn lower(look: Look, b: u8) -> bool
    ensures { result ≡ lower look b }
{
    !settings::external(look) && (settings::gm(look) % 2 == 1 && b < 32)
}

// Which pattern of the font a letter shows.
#[tactic(auto, unfolding(pixel::specs::Text::pattern))]
fn pattern(look: Look, b: u8) -> usize
    ensures { result ≡ pattern look b }
{
    if settings::external(look) {
        return usize::from(b);
    }
    if lower(look, b) {
        64 + usize::from(b)
    } else {
        usize::from(b % 64)
    }
}

// 1 where a letter is inverted, else 0: lower case is, and of the others those with DD6.
// Kept as a number: because it is compared with GM1, which is one.
#[tactic(auto, unfolding(pixel::specs::Text::inverted))]
fn inverted(look: Look, b: u8) -> usize
    ensures { result ≡ inverted look b }
{
    usize::from(lower(look, b) || b / 64 % 2 == 1)
}

// The lit dots of Semigraphics 4 on a row.
#[tactic(auto, unfolding(pixel::specs::Text::block))]
fn block(look: Look, b: u8, row: usize) -> u8
    ensures { result ≡ block look b row }
{
    if row < 6 {
        return 240 * (b / 8 % 2) + 15 * (b / 4 % 2);
    }
    240 * (b / 2 % 2) + 15 * (b % 2)
}

// The colour of a byte's lit dots.
#[tactic(auto, unfolding(pixel::specs::Text::ink))]
fn ink(look: Look, b: u8) -> u8
    ensures { (result ≡ ink look b) × (result < 8) }
{
    if b < 128 {
        return 7 * settings::css(look);
    }
    b / 16 % 8
}

// A font of the length that the look asks for.
#[derive(Drop)]
struct Font<'a> {
    look: Look,
    patterns: &'a [u8],
    ghost whole: { length patterns.now ≡ font_size look },
}

impl<'a> Font<'a> {
    // A letter's lit dots on a row.
    fn letter(&self, b: u8, row: usize) -> u8
        requires { row < 12 }
        ensures { result ≡ letter self.now.look self.now.patterns.now b row }
    {
        let dots = self.patterns[pattern(self.look, b) * 12 + row];
        if inverted(self.look, b) == settings::gm(self.look) / 2 % 2 {
            dots
        } else {
            255 - dots
        }
    }

    // A byte's lit dots on a row.
    #[tactic(auto, unfolding(pixel::specs::Text::lit))]
    fn lit(&self, b: u8, row: usize) -> u8
        requires { row < 12 }
        ensures { result ≡ lit self.now.look self.now.patterns.now b row }
    {
        if b < 128 {
            return self.letter(b, row);
        }
        block(self.look, b, row)
    }

    // Puts the lit dots of a byte on its twelve rows into the table.
    fn glyph(&self, b: u8, rows: &mut [u8; 3072])
        ensures { Filled (λ n. lit self.now.look self.now.patterns.now (n / 12) (n % 12)) (b * 12) (b * 12 + 12) rows.old rows.new }
    {
        let at = usize::from(b) * 12;
        for (row, dots) in rows[at..at + 12].iter_mut().enumerate() {
            *dots = self.lit(b, row);
        }
    }

    // The lit dots of every byte on its twelve rows.
    fn glyphs(&self) -> [u8; 3072]
        ensures { (n : ℕ) → n < 3072 → get_or result n 0 ≡ lit self.now.look self.now.patterns.now (n / 12) (n % 12) }
    {
        let mut rows = [0u8; 3072];
        for b in 0..=u8::MAX {
            self.glyph(b, &mut rows);
        }
        rows
    }
}

// For every byte its eight bits from the left, 255 for 1 and 0 for 0.
#[derive(Drop)]
struct Masks {
    of_bits: [u8; 2048],
    ghost by_index: { (n : ℕ) → n < 2048 → get_or of_bits n 0 ≡ one_bit 255 0 (n / 8) (n % 8) },
}

impl Masks {
    fn new() -> Masks {
        Masks {
            of_bits: by_bits(255, 0),
        }
    }

    // Puts eight dots into the frame, in `ink` where they are lit and else black, 8: the mask of a lit dot takes the difference of the two off 8.
    // Kept with the frame and a place, here and in `line`: because a line is promised by places of the whole frame, and what a part promises would
    // have to be moved to those. The masks are told by an index: `zip` has no promise here of what the part ends as.
    fn tint(&self, lit: u8, ink: u8, frame: &mut [u8], at: usize)
        requires { (ink < 8) × (at + 8 ≤ length frame.old) }
        ensures { Filled (λ k. one_bit ink black lit (k - at)) at (at + 8) frame.old frame.new }
    {
        let from = usize::from(lit) * 8;
        let difference = 8 - ink;
        for (t, pixel) in frame[at..at + 8].iter_mut().enumerate() {
            *pixel = 8 - (difference & self.of_bits[from + t]);
        }
    }
}

// What a text frame is drawn by: its look, the lit dots of every byte's rows, and the masks that tint them.
#[derive(Drop)]
struct Letters {
    look: Look,
    rows: [u8; 3072],
    masks: Masks,
}

impl Letters {
    // Draws line n of a text frame.
    fn line(&self, strip: &[u8], n: usize, frame: &mut [u8])
        requires { (n < 192) × (6144 ≤ length strip.now) × (frame_length ≤ length frame.old) }
        ensures { Filled (typed self.now.look self.now.rows strip.now) (n * 256) (n * 256 + 256) frame.old frame.new }
    {
        let row = n % 12;
        // Kept as a loop over places, here and in `text`: because with `chunks_exact_mut` it stays open what the frame is afterwards.
        for c in 0..32 {
            let b = strip[n * 32 + c];
            let lit = self.rows[usize::from(b) * 12 + row];
            self.masks
                .tint(lit, ink(self.look, b), frame, n * 256 + c * 8);
        }
    }
}

// Draws a text frame.
pub(crate) fn text(look: Look, font: &[u8], strip: &[u8], frame: &mut [u8])
    requires { (graphics look ≡ false) × (length font.now ≡ font_size look) × (6144 ≤ length strip.now) × (frame_length ≤ length frame.old) }
    ensures { Filled (picture look font.now strip.now) 0 frame_length frame.old frame.new }
{
    let font = Font {
        look,
        patterns: font,
    };
    let letters = Letters {
        look,
        rows: font.glyphs(),
        masks: Masks::new(),
    };
    for n in 0..192 {
        letters.line(strip, n, frame);
    }
}
