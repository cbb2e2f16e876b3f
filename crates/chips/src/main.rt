// Brings what was read off the chips to an image, or back: standard input to standard output, by the arguments k and `image` or `chip`.
#![tactic(auto)]

use answer::Answer;
use std::rt::Env;

// The longest argument that is looked at.
const LONGEST: usize = 64;

// The number that decimal digits make. No chip has as many pins as the largest, and a greater one is refused like it.
// Kept by digits: because `parse` would refuse a number that is too great.
fn pins_in(word: &[u8]) -> Option<usize> {
    if word.is_empty() {
        return None;
    }
    let mut k = 0usize;
    for b in word {
        let digit = char::from(*b).to_digit(10)?;
        k = k.saturating_mul(10).saturating_add(digit as usize);
    }
    Some(k)
}

// Says what the arguments are.
fn explain(rt: &impl Eprint) {
    let _ = eprintln!(rt;
        "chips: give k, the number of address pins, and a direction, image or chip"
    );
}

// Writes the bytes where the answer is Done, and else says the refusal on standard error.
fn finish(rt: &(impl Print + Eprint), answer: Answer, bytes: &[u8]) {
    match answer {
        Ok(_) => {
            if rt.write_all(bytes).is_err() {
                let _ = eprintln!(rt; "chips: the output is not whole");
            }
        }
        Err(refusal) => {
            let _ = eprintln!(rt; "{refusal}");
        }
    }
}

// Crosses standard input by an operation. The longest image has 65,536 bytes, and a byte more is enough to be refused.
fn cross<F: Fn(usize, &[u8], &mut [u8]) -> Answer>(
    rt: &(impl Input + Print + Eprint),
    k: usize,
    operation: F,
)
    requires { F.IsAlwaysCallable operation }
{
    let mut lent = [0u8; 65537];
    let mut room = [0u8; 65537];
    let Ok(lent) = files::read_input(rt, &mut lent) else {
        let _ = eprintln!(rt; "chips: the input cannot be read");
        return;
    };
    let answer = operation(k, lent, &mut room);
    finish(rt, answer, &room[..lent.len()]);
}

// Crosses by the number of pins, to where the word says.
fn cross_to(rt: &(impl Input + Print + Eprint), k: usize, word: &[u8]) {
    match word {
        b"image" => cross(rt, k, transpose::to_image),
        b"chip" => cross(rt, k, transpose::to_chip),
        _ => explain(rt),
    }
}

// Crosses by two arguments; a third is enough to see that there are too many.
fn run(rt: &(impl Env + Input + Print + Eprint)) {
    let mut pins = [0u8; LONGEST];
    let mut word = [0u8; LONGEST];
    let mut more = [0u8; 1];
    let given = [
        files::argument(rt, 1, &mut pins),
        files::argument(rt, 2, &mut word),
        files::argument(rt, 3, &mut more),
    ];
    if let [Some(pins), Some(word), None] = given
        && let Some(k) = pins_in(pins)
    {
        cross_to(rt, k, word);
        return;
    }
    explain(rt);
}

fn main(rt: HostRuntime) {
    run(&rt);
}
