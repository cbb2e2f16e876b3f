// Drawing: the bytes of a strip as the pixels of a frame.
#![tactic(auto)]

mod graphics;
mod letters;
mod tables;

ghost use Rattle.std.specs.Prelude.{◌≡◌, ◌++◌, length, get_or};
ghost use Rattle.promises.specs.Told.{done};
ghost use Rattle.promises.specs.Order.{first_of};
ghost use Rattle.promises.specs.Written.{Filled};
ghost use Rattle.answer.specs.Told.{told_of};
ghost use Rattle.settings.specs.Modes.{border};
ghost use Rattle.settings.specs.Refusals.{frame_length};
ghost use Rattle.pixel.specs.Picture.{picture};
ghost use Rattle.frame.specs.Draw.{draw_lengths, draw_bytes, draw_told, frame_after, DrawFits};

use answer::Answer;
use graphics::plot;
use letters::text;
use settings::Look;

// The answer, by the look, the three lengths, and the bytes that are drawn.
fn draw_answer(look: Look, font: usize, strip: &[u8], frame: usize) -> Answer
    ensures { told_of result ≡ first_of (draw_lengths look font (length strip.now) frame ++ draw_bytes look (λ k. get_or strip.now k 0)) (done (border look)) }
{
    settings::pins_above(look)?;
    settings::font_length(look, font)?;
    settings::short_strip(look, strip.len())?;
    settings::short_frame(frame)?;
    valid::not_valid(look, strip)?;
    Ok(usize::from(settings::border(look)))
}

// Draws the picture, where nothing is refused.
// Kept as slices whose lengths each contract names: because `frame_after`, in the promise of `draw`, speaks of a frame of any length, and an array of its front would have to be moved into it again.
fn paint(look: Look, font: &[u8], strip: &[u8], frame: &mut [u8])
    requires { DrawFits look (length font.now) (length strip.now) (length frame.old) }
    ensures { Filled (picture look font.now strip.now) 0 frame_length frame.old frame.new }
{
    if settings::graphics(look) {
        plot(look, strip, frame);
    } else {
        text(look, font, strip, frame);
    }
}

// Draws a strip: done with the border, and the picture in the first 49,152 bytes of the frame, or refused with the frame as it was.
pub fn draw(look: Look, font: &[u8], strip: &[u8], frame: &mut [u8]) -> Answer
    ensures answer { told_of result ≡ draw_told look font.now strip.now frame.old }
    ensures frame { frame.new ≡ frame_after look font.now strip.now frame.old }
{
    let border = draw_answer(look, font.len(), strip, frame.len())?;
    paint(look, font, strip, frame);
    Ok(border)
}
