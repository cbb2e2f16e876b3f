// Both at once: the strip fetched and the frame drawn.
#![tactic(auto)]

ghost use Rattle.std.specs.Prelude.{◌≡◌, length};
ghost use Rattle.promises.specs.Told.{done};
ghost use Rattle.promises.specs.Order.{first_of};
ghost use Rattle.answer.specs.Told.{told_of};
ghost use Rattle.settings.specs.Modes.{border};
ghost use Rattle.screen.specs.Show.{show_lengths, show_told, strip_shown, frame_shown};

use answer::Answer;
use settings::Settings;

// The answer, by the settings and the lengths of what is lent.
fn length_answer(
    settings: Settings,
    image: usize,
    font: usize,
    strip: usize,
    frame: usize,
) -> Answer
    ensures { told_of result ≡ first_of (show_lengths settings image font strip frame) (done (border settings.look)) }
{
    let look = settings.look;
    settings::pins_above(look)?;
    settings::fast_rate(settings)?;
    settings::image_length(image)?;
    settings::not_suited(settings, image)?;
    settings::font_length(look, font)?;
    settings::short_strip(look, strip)?;
    settings::short_frame(frame)?;
    strip::not_fitted(settings, image)?;
    Ok(usize::from(settings::border(look)))
}

// The work, where no length is refused: the bytes are fetched into an array here, and stored in the strip once drawing them is not refused.
// Kept with the parameters of `show`, here and in `length_answer`: because a struct that is made once for these two would be no plainer.
fn render(
    settings: Settings,
    image: &[u8],
    font: &[u8],
    strip: &mut [u8],
    frame: &mut [u8],
) -> Answer
    requires { (first_of (show_lengths settings (length image.now) (length font.now) (length strip.old) (length frame.old)) (done (border settings.look))).number ≡ 0 }
    ensures answer { told_of result ≡ show_told settings image.now font.now strip.old frame.old }
    ensures stored { strip.new ≡ strip_shown settings image.now font.now strip.old frame.old }
    ensures drawn { frame.new ≡ frame_shown settings image.now font.now strip.old frame.old }
{
    let look = settings.look;
    let mut bytes = [0u8; 6144];
    strip::fetch(settings, image, &mut bytes);
    let border = frame::draw(look, font, &bytes, frame)?;
    buffer::store(&bytes, settings::strip_length(look), strip);
    Ok(border)
}

// Fetches the strip and draws it: done with the border, or refused with both buffers as they were.
pub fn show(
    settings: Settings,
    image: &[u8],
    font: &[u8],
    strip: &mut [u8],
    frame: &mut [u8],
) -> Answer
    ensures answer { told_of result ≡ show_told settings image.now font.now strip.old frame.old }
    ensures bytes { strip.new ≡ strip_shown settings image.now font.now strip.old frame.old }
    ensures pixels { frame.new ≡ frame_shown settings image.now font.now strip.old frame.old }
{
    length_answer(settings, image.len(), font.len(), strip.len(), frame.len())?;
    render(settings, image, font, strip, frame)
}
