// Bytes that external text does not show: the first of them is refused with 15.
#![tactic(auto)]

ghost use Rattle.std.specs.Prelude.{◌≡◌, false, ℕ, ◌<◌, ◌≤◌, ◌||◌, fold, position, leb, length, get_or, MatchOption};
ghost use Rattle.promises.specs.First.{first_where};
ghost use Rattle.answer.specs.Told.{Says};
ghost use Rattle.settings.specs.Refusals.{strip_length};
ghost use Rattle.valid.specs.Valid.{first_not_valid, not_valid_byte};

use answer::Refusal;
use settings::Look;

// Kept here and, with another limit, in picture: because one for both would be a public function, and what is public may not grow.
// Answers false only where the bytes are all below 128. Every byte is looked at: with `any`, drawing external text takes 14 % longer.
fn some_high(bytes: &[u8]) -> bool
    ensures { result ≡ fold (λ found b. found || leb 128 b) false bytes.now }
{
    bytes.iter().fold(false, |found, b| found | (128 <= *b))
}

// The first byte that is 128 or more.
fn search(bytes: &[u8]) -> Option<usize>
    ensures { result ≡ position (λ b. leb 128 b) bytes.now }
{
    bytes.iter().position(|b| 128 <= *b)
}

// The strip index of the first byte that is not valid. A byte that the strip lacks counts as 0.
fn first_not_valid(look: Look, strip: &[u8]) -> Option<usize>
    ensures { MatchOption result (first_not_valid look (λ k. get_or strip.now k 0) ≡ strip_length look) (λ k. (first_not_valid look (λ k. get_or strip.now k 0) ≡ k) × (k < strip_length look)) }
{
    if !settings::external(look) {
        return None;
    }
    let bytes = &strip[..settings::strip_length(look).min(strip.len())];
    if !some_high(bytes) {
        return None;
    }
    search(bytes)
}

// 15: in external text a byte of 128 or more.
pub fn not_valid(look: Look, strip: &[u8]) -> Result<(), Refusal>
    ensures { Says (not_valid_byte look (λ k. get_or strip.now k 0)) result }
{
    if let Some(k) = first_not_valid(look, strip) {
        return Err(Refusal::NotValid(k));
    }
    Ok(())
}
