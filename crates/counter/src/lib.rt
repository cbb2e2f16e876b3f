// The SAM's video address counter.
#![tactic(auto)]

ghost use Rattle.std.specs.Prelude.{◌≡◌};
ghost use Rattle.counter.specs.Counter.{div_x, div_y, kept, start, fall, carry, advance, cleared, clearing_counts, clear};
ghost use Rattle.counter.specs.Steps.{clears_b4, ends_count, row_lasts, line_lasts, one_stretch, line_step};

use settings::{Rule, Settings};

// The address bits B0-B15, and the counts of the X and Y dividers.
#[derive(Clone, Copy)]
pub struct Counter {
    pub address: u16,
    pub x: u8,
    pub y: u8,
}

// X, Y and the lowest bit that a line's end keeps above B0, by V2-V0. Each is a `match`, since a constant array is built anew wherever it is indexed.
fn times_x(settings: Settings) -> usize
    ensures { result ≡ div_x settings }
{
    match settings::video_mode(settings) {
        1 => 3,
        3 => 2,
        _ => 1,
    }
}

fn times_y(settings: Settings) -> usize
    ensures { result ≡ div_y settings }
{
    match settings::video_mode(settings) {
        0 => 12,
        2 => 3,
        4 => 2,
        _ => 1,
    }
}

fn kept_from(settings: Settings) -> u16
    ensures { result ≡ kept settings }
{
    match settings::video_mode(settings) {
        0 | 2 | 4 | 6 => 5,
        1 | 3 | 5 => 4,
        _ => 1,
    }
}

// Whether clearing a set B4 counts on the Y divider.
fn clearing_counts(rule: Rule) -> bool
    ensures { result ≡ clearing_counts rule }
{
    matches!(rule, Rule::Two)
}

// Whether a line's end clears B4.
fn clears_b4(settings: Settings) -> bool
    ensures { result ≡ clears_b4 settings }
{
    kept_from(settings) == 5
}

// Whether every line's end counts on the Y divider.
fn ends_count(settings: Settings) -> bool
    ensures { result ≡ ends_count settings }
{
    let one_run = settings::width(settings.look) == 16;
    clearing_counts(settings.rule) && one_run && clears_b4(settings)
}

// How many lines in a row have the places of the first of them, the same throughout a frame.
pub fn line_lasts(settings: Settings) -> usize
    ensures { result ≡ line_lasts settings }
{
    let x = times_x(settings);
    let y = times_y(settings);
    let one_run = settings::width(settings.look) == 16;
    if ends_count(settings) {
        return y;
    }
    if one_run && clears_b4(settings) {
        return 192;
    }
    if one_run || x == 1 { x * y } else { 1 }
}

// Whether each line is one stretch of places.
pub fn one_stretch(settings: Settings) -> bool
    ensures { result ≡ one_stretch settings }
{
    settings::width(settings.look) == 16 || times_x(settings) == 1
}

// How far such a stretch lies from the one before.
pub fn line_step(settings: Settings) -> u16
    ensures { result ≡ line_step settings }
{
    let two_runs = settings::width(settings.look) == 32;
    if clears_b4(settings) || two_runs {
        32
    } else {
        16
    }
}

// How many fetches a row of 32 places lasts, the same for every row of a frame.
#[tactic(auto, using(crate::proofs::Rows::places_le))]
pub fn row_lasts(settings: Settings) -> usize
    ensures { result ≡ row_lasts settings }
{
    let x = times_x(settings);
    let wide = settings::width(settings.look);
    let lines = line_lasts(settings);
    if clears_b4(settings) {
        wide * lines
    } else {
        32 * x
    }
}

// The counter before a frame's first byte.
#[tactic(auto, unfolding(crate::specs::Counter::start))]
pub fn start(settings: Settings) -> Counter
    ensures { result ≡ start settings }
{
    Counter {
        address: settings::offset(settings) * 512,
        x: 0,
        y: 0,
    }
}

impl Counter {
    // The counter where B0-B3 pass 15: they return to 0, and the dividers count.
    #[tactic(auto, unfolding(crate::specs::Counter::carry, crate::specs::Counter::fall))]
    pub fn carry(self, settings: Settings) -> Counter
        ensures { result ≡ carry settings self }
    {
        let run = self.address / 16 * 16;
        let next = run.wrapping_add(16);
        let x = self.x;
        let y = self.y;
        if usize::from(x) + 1 < times_x(settings) {
            return Counter {
                address: run,
                x: x + 1,
                y,
            };
        }
        // B4 rises
        if run % 32 == 0 {
            return Counter {
                address: next,
                x: 0,
                y,
            };
        }
        // B4 falls. Kept as `fall` written out: with a call, a program that fetches and clears takes a fifth to a third longer where each line
        // is one stretch, and a quarter less where it is not.
        if usize::from(y) + 1 < times_y(settings) {
            return Counter {
                address: run - 16,
                x: 0,
                y: y + 1,
            };
        }
        Counter {
            address: next,
            x: 0,
            y: 0,
        }
    }

    // The counter after one byte.
    #[tactic(auto, unfolding(crate::specs::Counter::advance))]
    pub fn advance(self, settings: Settings) -> Counter
        ensures { result ≡ advance settings self }
    {
        let address = self.address;
        if address % 16 == 15 {
            return self.carry(settings);
        }
        Counter {
            address: address.wrapping_add(1),
            ..self
        }
    }

    // The counter whose B4 has gone from 1 to 0: the Y divider counts.
    #[tactic(auto, unfolding(crate::specs::Counter::fall))]
    fn fall(self, settings: Settings) -> Counter
        ensures { result ≡ fall settings self }
    {
        let y = self.y;
        if usize::from(y) + 1 < times_y(settings) {
            return Counter {
                address: self.address,
                x: self.x,
                y: y + 1,
            };
        }
        Counter {
            address: self.address.wrapping_add(32),
            x: self.x,
            y: 0,
        }
    }

    // The counter with the bits cleared that a line's end clears.
    fn cleared(self, settings: Settings) -> Counter
        ensures { result ≡ cleared settings self }
    {
        let kept = kept_from(settings);
        let address = self.address;
        Counter {
            address: ((address >> kept) << kept) + address % 2,
            x: self.x,
            y: self.y,
        }
    }

    // The counter after a line's last byte.
    #[tactic(auto, unfolding(crate::specs::Counter::clear))]
    pub fn clear(self, settings: Settings) -> Counter
        ensures { result ≡ clear settings self }
    {
        let cleared = self.cleared(settings);
        let drops = self.address / 16 % 2 == 1 && cleared.address / 16 % 2 == 0;
        if clearing_counts(settings.rule) && drops {
            return cleared.fall(settings);
        }
        cleared
    }
}
