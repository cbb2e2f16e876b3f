// Tables of the eight dots of every byte.
ghost use Rattle.std.specs.Prelude.{◌≡◌, ◌+◌, ◌/◌, ◌%◌, ◌<◌, ℕ, get_or};
ghost use Rattle.pixel.specs.Dots.{one_bit, two_bits};

// Bit j of eight from the left: `on` where it is 1, else `off`.
#[tactic(auto, unfolding(pixel::specs::Dots::bit, pixel::specs::Dots::one_bit))]
fn one_bit(on: u8, off: u8, b: u8, j: usize) -> u8
    requires { j < 8 }
    ensures { result ≡ one_bit on off b j }
{
    if (b >> (7 - j)) % 2 == 1 { on } else { off }
}

// The two bits of pair j of four from the left.
#[tactic(auto, unfolding(pixel::specs::Dots::two_bits))]
fn two_bits(b: u8, j: usize) -> u8
    requires { j < 4 }
    ensures { (result ≡ two_bits b j) × (result < 4) }
{
    (b >> (6 - 2 * j)) % 4
}

// The eight bits of every byte, from the left: `on` for 1 and `off` for 0.
// Kept as two functions, this and `by_pairs`: because one with a closure for the dot would promise only what the closure answers, and each table would still need a function of its own.
pub(crate) fn by_bits(on: u8, off: u8) -> [u8; 2048]
    ensures { (n : ℕ) → n < 2048 → get_or result n 0 ≡ one_bit on off (n / 8) (n % 8) }
{
    let mut table = [0u8; 2048];
    for (n, dot) in table.iter_mut().enumerate() {
        *dot = one_bit(on, off, (n / 8) as u8, n % 8);
    }
    table
}

// The four pairs of bits of every byte, from the left, two dots each: the pair's value, counted from the colour `base`.
pub(crate) fn by_pairs(base: u8) -> [u8; 2048]
    requires { base < 5 }
    ensures { (n : ℕ) → n < 2048 → get_or result n 0 ≡ base + two_bits (n / 8) (n % 8 / 2) }
{
    let mut table = [0u8; 2048];
    for (n, dot) in table.iter_mut().enumerate() {
        *dot = base + two_bits((n / 8) as u8, n % 8 / 2);
    }
    table
}
