// Adjoining plans on one canvas: rectangles of one frame laid over each other at signed positions.
#![tactic(auto)]

ghost use Rattle.std.specs.Prelude.{◌≡◌, [], ◌∷◌, ◌-◌, ◌≤◌, ◌<◌, map, length, MatchOption};
ghost use Rattle.answer.specs.Told.{told_of};
ghost use Rattle.plans.specs.Canvas.{area, with_counts, entered, laid, canvas_fits, outside, first_outside, lay_told, entries_after, canvas_after};
ghost use Rattle.canvas.specs.Patch.{side_of, Lies, Patched, Ready};

use answer::{Answer, Refusal};
use plans::Placement;

// A side of a rectangle against the canvas: how many of its places are cut at the left or top edge, where the next one goes, and how many are kept.
#[derive(Clone, Copy)]
struct Side {
    cut: usize,
    start: usize,
    kept: usize,
}

impl Side {
    // Cuts a side of n places from z on at the edges of a canvas of `edge` places: the same for columns and for lines.
    fn clip(z: i16, n: usize, edge: usize) -> Side
        ensures { result ≡ side_of z n edge }
    {
        // Widened first, since -32,768 has no opposite in 16 bits.
        let wide = i32::from(z);
        let (cut, start) = if wide < 0 {
            ((-wide) as usize, 0)
        } else {
            (0, wide as usize)
        };
        let kept = n.saturating_sub(cut).min(edge.saturating_sub(start));
        Side { cut, start, kept }
    }
}

// Pixels that are copied: `lines` rows of `columns` each, from place `from` of the frame on, to column `column` and line `line` of the canvas.
#[derive(Clone, Copy)]
struct Patch {
    from: usize,
    columns: usize,
    lines: usize,
    column: usize,
    line: usize,
}

impl Patch {
    // Copies the rows from the frame to a canvas of this width.
    fn copy(self, frame: &[u8], canvas: &mut [u8], width: usize)
        requires { Lies self (length frame.now) width (length canvas.old) }
        ensures { Patched frame.now self width canvas.old canvas.new }
    {
        // Kept as a loop over places: because with `chunks_exact_mut` it stays open what the canvas is afterwards, as in crate `picture`.
        for i in 0..self.lines {
            let from = self.from + i * 256;
            let at = (self.line + i) * width + self.column;
            canvas[at..at + self.columns].copy_from_slice(&frame[from..from + self.columns]);
        }
    }
}

// The entry of a placement that has `on` pixels on the canvas: the rest of its area is cut.
fn counted(p: Placement, on: usize) -> Placement
    requires { (area p ≤ 65536) × (on ≤ area p) }
    ensures { result ≡ with_counts p on (area p - on) }
{
    Placement {
        on,
        cut: p.across * p.down - on,
        ..p
    }
}

// Lays one rectangle on the canvas, and gives its entry with the counts.
fn lay_one(frame: &[u8], p: Placement, width: usize, height: usize, canvas: &mut [u8]) -> Placement
    requires { Ready (length frame.now) p width height (length canvas.old) }
    ensures entry { result ≡ entered width height p }
    ensures pixels { canvas.new ≡ laid frame.now width (p ∷ []) canvas.old }
{
    let h = Side::clip(p.x, p.across, width);
    let v = Side::clip(p.y, p.down, height);
    let on = h.kept * v.kept;
    if on == 0 {
        return counted(p, 0);
    }
    let patch = Patch {
        from: (p.top + v.cut) * 256 + (p.left + h.cut),
        columns: h.kept,
        lines: v.kept,
        column: h.start,
        line: v.start,
    };
    patch.copy(frame, canvas, width);
    counted(p, on)
}

// Whether a rectangle is empty, or outside the frame even in part.
#[tactic(auto, unfolding(plans::specs::Canvas::outside))]
fn is_outside(p: Placement) -> bool
    ensures { result ≡ outside p }
{
    256 < p.left
        || 192 < p.top
        || p.across == 0
        || p.down == 0
        || 256 - p.left < p.across
        || 192 - p.top < p.down
}

// The index of the first placement whose rectangle is outside.
fn first_outside(placements: &[Placement]) -> Option<usize>
    ensures { MatchOption result (first_outside placements.now ≡ length placements.now) (λ k. (first_outside placements.now ≡ k) × (k < length placements.now)) }
{
    placements.iter().position(|p| is_outside(*p))
}

// Whether a canvas has its stated size.
#[tactic(auto, unfolding(plans::specs::Canvas::canvas_fits))]
fn canvas_fits(width: usize, height: usize, room: usize) -> bool
    ensures { result ≡ canvas_fits width height room }
{
    width != 0
        && height != 0
        && width <= 65536
        && height <= 65536
        && room == width * height
        && room <= 65536
}

// What is answered, by the lengths of what is lent and the first placement whose rectangle is outside.
#[tactic(auto, unfolding(plans::specs::Canvas::order_told))]
fn lay_answer(
    frame: &[u8],
    placements: &[Placement],
    width: usize,
    height: usize,
    canvas: &[u8],
) -> Answer
    ensures { told_of result ≡ lay_told frame.now placements.now width height canvas.now }
{
    settings::short_frame(frame.len())?;
    answer::refuse(
        !canvas_fits(width, height, canvas.len()),
        Refusal::WrongCanvas,
    )?;
    answer::refuse(32 < placements.len(), Refusal::ManyPlacements)?;
    if let Some(first) = first_outside(placements) {
        return Err(Refusal::OutsideFrame(first));
    }
    Ok(0)
}

// Lays the placements of an accepted call in order, and enters the counts of each.
// Kept with the canvas and its two sides beside each other: because `lay_told`, `entries_after` and `canvas_after`, in the promise of `lay`, take them so.
fn lay_all(
    frame: &[u8],
    placements: &mut [Placement],
    width: usize,
    height: usize,
    canvas: &mut [u8],
)
    requires { (lay_told frame.now placements.old width height canvas.old).number ≡ 0 }
    ensures entries { placements.new ≡ map (entered width height) placements.old }
    ensures pixels { canvas.new ≡ laid frame.now width placements.old canvas.old }
{
    for p in placements.iter_mut() {
        *p = lay_one(frame, *p, width, height, canvas);
    }
}

// Lays every placement of a lent list on the canvas, in order, and enters its counts; or refuses, and stores nothing.
pub fn lay(
    frame: &[u8],
    placements: &mut [Placement],
    width: usize,
    height: usize,
    canvas: &mut [u8],
) -> Answer
    ensures answer { told_of result ≡ lay_told frame.now placements.old width height canvas.old }
    ensures entries { placements.new ≡ entries_after frame.now placements.old width height canvas.old }
    ensures pixels { canvas.new ≡ canvas_after frame.now placements.old width height canvas.old }
{
    let done = lay_answer(frame, placements, width, height, canvas)?;
    lay_all(frame, placements, width, height, canvas);
    Ok(done)
}
