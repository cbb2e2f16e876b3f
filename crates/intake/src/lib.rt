// From a sheet to the settings that it gives: its writes played from reset, its pins, and its rule.
#![tactic(auto)]

ghost use Rattle.std.specs.Prelude.{◌≡◌};
ghost use Rattle.promises.specs.Told.{done};
ghost use Rattle.promises.specs.Order.{first_of};
ghost use Rattle.answer.specs.Told.{told_of};
ghost use Rattle.intake.specs.Intake.{setting_order, no_settings};
ghost use Rattle.intake.specs.Taken.{Taken};

use answer::{Answer, Refusal};
use settings::{Look, Rule, Settings};

// What is taken in of a sheet: the answer, the settings where it is Done, and the number of annotations of an accepted sheet.
// Kept with the answer beside the settings: because `Taken`, the promise of `settings_of`, gives the annotations of a refusal too.
#[derive(Clone, Copy)]
pub struct Intake {
    pub answer: Answer,
    pub settings: Settings,
    pub annotations: usize,
}

// A refusal, with no settings.
fn refused(refusal: Refusal, annotations: usize) -> Intake
    ensures { (result.answer ≡ Err refusal) × (result.settings ≡ no_settings) × (result.annotations ≡ annotations) }
{
    Intake {
        answer: Err(refusal),
        settings: Settings {
            word: 0,
            look: Look { pins: 0 },
            rule: Rule::One,
        },
        annotations,
    }
}

// The checks of the settings: 1, 4.
fn settings_answer(settings: Settings) -> Answer
    ensures { told_of result ≡ first_of (setting_order settings) (done 0) }
{
    settings::pins_above(settings.look)?;
    settings::fast_rate(settings)?;
    Ok(0)
}

// The settings of a sheet; it is refused with 11, 10, 1, 4, in this order.
pub fn settings_of(sheet: &[u8]) -> Intake
    ensures { Taken sheet.now result }
{
    let fields = sheet::read(sheet);
    let annotations = fields.annotations;
    if let Err(refusal) = fields.answer {
        return refused(refusal, annotations);
    }
    let word = match control::play(0, &fields.writes[..fields.write_count]) {
        Ok(word) => word as u16,
        Err(refusal) => return refused(refusal, annotations),
    };
    let settings = Settings {
        word,
        look: Look { pins: fields.pins },
        rule: fields.rule,
    };
    match settings_answer(settings) {
        Ok(done) => Intake {
            answer: Ok(done),
            settings,
            annotations,
        },
        Err(refusal) => refused(refusal, annotations),
    }
}
