// Graphics: every byte of the strip by a table of its eight dots, each one or two pixels wide.
ghost use Rattle.std.specs.Prelude.{◌≡◌, true, ℕ, ◌+◌, ◌-◌, ◌*◌, ◌/◌, ◌%◌, ◌<◌, ◌≤◌, length, get_or};
ghost use Rattle.promises.specs.Written.{Filled};
ghost use Rattle.settings.specs.Fields.{graphics};
ghost use Rattle.settings.specs.Modes.{width};
ghost use Rattle.settings.specs.Refusals.{frame_length};
ghost use Rattle.pixel.specs.Graphics.{graphic};
ghost use Rattle.pixel.specs.Picture.{owner, dot};
ghost use Rattle.frame.specs.Steps.{shade, Stretch, plotted};

use crate::tables::{by_bits, by_pairs};
use settings::Look;

// The eight dots that the look shows of every byte.
fn shades(look: Look) -> [u8; 2048]
    ensures { (n : ℕ) → n < 2048 → get_or result n 0 ≡ shade look (n / 8) (n % 8) }
{
    let colour = 4 * settings::css(look);
    if settings::gm(look) % 2 == 1 {
        by_bits(colour, 8)
    } else {
        by_pairs(colour)
    }
}

// Copies the eight dots of byte b into the frame, each `STRETCH` pixels wide.
// Kept with the frame and a place, here and in `plot_line`: because a line is promised by places of the whole frame, and what a part promises
// would have to be moved to those.
fn copy<const STRETCH: usize>(table: &[u8; 2048], b: u8, frame: &mut [u8], at: usize)
    requires { Stretch STRETCH × (at + 8 * STRETCH ≤ length frame.old) }
    ensures { Filled (λ k. get_or table.now (b * 8 + (k - at) / STRETCH) 0) at (at + 8 * STRETCH) frame.old frame.new }
{
    let from = usize::from(b) * 8;
    for (t, pixel) in frame[at..at + 8 * STRETCH].iter_mut().enumerate() {
        *pixel = table[from + t / STRETCH];
    }
}

// Draws line n of a graphics frame.
// `Stretch STRETCH` is kept as a clause, here and around it: because a trait with the constant, its ghost number and the law would be longer than the clause.
fn plot_line<const STRETCH: usize>(table: &[u8; 2048], strip: &[u8], n: usize, frame: &mut [u8])
    requires { Stretch STRETCH × (n < 192) × (192 * (32 / STRETCH) ≤ length strip.now) × (frame_length ≤ length frame.old) }
    ensures { Filled (plotted STRETCH table.now strip.now) (n * 256) (n * 256 + 256) frame.old frame.new }
{
    let width = 32 / STRETCH;
    // Kept as a loop over places, here and in `plot_lines`: because with `chunks_exact_mut` it stays open what the frame is afterwards.
    for c in 0..width {
        copy::<STRETCH>(
            table,
            strip[n * width + c],
            frame,
            n * 256 + c * (8 * STRETCH),
        );
    }
}

// Draws the 192 lines of a graphics frame.
fn plot_lines<const STRETCH: usize>(table: &[u8; 2048], strip: &[u8], frame: &mut [u8])
    requires { Stretch STRETCH × (192 * (32 / STRETCH) ≤ length strip.now) × (frame_length ≤ length frame.old) }
    ensures { Filled (plotted STRETCH table.now strip.now) 0 frame_length frame.old frame.new }
{
    for n in 0..192 {
        plot_line::<STRETCH>(table, strip, n, frame);
    }
}

// Draws a graphics frame.
pub(crate) fn plot(look: Look, strip: &[u8], frame: &mut [u8])
    requires { (graphics look ≡ true) × (192 * width look ≤ length strip.now) × (frame_length ≤ length frame.old) }
    ensures { Filled (λ k. graphic look (get_or strip.now (owner look k) 0) (dot look k)) 0 frame_length frame.old frame.new }
{
    let table = shades(look);
    if settings::width(look) == 32 {
        plot_lines::<1>(&table, strip, frame);
    } else {
        plot_lines::<2>(&table, strip, frame);
    }
}
