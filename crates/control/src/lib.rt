// Control writes played over the SAM's control word.
#![tactic(auto)]

ghost use Rattle.std.specs.Prelude.{◌≡◌, true};
ghost use Rattle.answer.specs.Told.{told_of};
ghost use Rattle.control.specs.Control.{is_control, word_after, play_told};

use answer::{Answer, Refusal};

// Whether an address is one of the control word's.
fn is_control(address: u16) -> bool
    ensures { result ≡ is_control address }
{
    matches!(address, 0xFFC0..=0xFFDF)
}

// The word after one write: which bit, by halving the distance from $FFC0, and set or cleared by the address being odd.
#[tactic(auto, unfolding(crate::specs::Control::word_after), using(crate::proofs::Addresses::bounds, crate::proofs::Addresses::in_word, crate::proofs::Masks::set_mask, crate::proofs::Masks::clear_mask))]
fn word_after(word: u16, address: u16) -> u16
    requires { is_control address ≡ true }
    ensures { result ≡ word_after word address }
{
    let bit = (address - 0xFFC0) / 2;
    let mask = 1 << bit;
    if address % 2 == 1 {
        word | mask
    } else {
        word & !mask
    }
}

// The writes played from a word in order, all of them or none.
pub fn play(word: u16, writes: &[u16]) -> Answer
    ensures { told_of result ≡ play_told word writes.now }
{
    let mut now = word;
    for (i, &address) in writes.iter().enumerate() {
        if !is_control(address) {
            return Err(Refusal::Elsewhere(i, word));
        }
        now = word_after(now, address);
    }
    Ok(usize::from(now))
}
