// Tries plans laid on one canvas: cut at every edge, over each other, on canvases of all shapes, and each refusal. Prints a line for each call.
#![tactic(auto)]

use answer::Answer;
use plans::Placement;
use std::{fmt, io};
use trial::{Answered, Output, cut, lay, mark, sum, unchanged_from};

// How many bytes of the frame are lent, the sides that are stated of the canvas, and how many bytes of it are lent.
#[derive(Clone, Copy)]
struct Lent {
    frame: usize,
    width: usize,
    height: usize,
    room: usize,
}

// An entry, as it is printed.
#[derive(Clone, Copy)]
struct Entry(Placement);

impl fmt::Display for Entry {
    fn fmt<W: fmt::Write>(&self, f: &mut fmt::Formatter<W>) -> fmt::Result {
        let p = self.0;
        write!(f, "[{} {} {} {} at", p.left, p.top, p.across, p.down)?;
        write!(f, " {} {} on {} cut {}]", p.x, p.y, p.on, p.cut)
    }
}

// How many entries are as they were.
fn kept(before: &[Placement], after: &[Placement]) -> usize {
    before.iter().zip(after).filter(|(p, q)| p == q).count()
}

// == Calls: the frame has pixels that tell their places, and more behind it; the canvas is marked, and so are the counts of each entry.

// Lays a list on as much of a canvas as there is room for.
fn lay_list(frame: &[u8], list: &mut [Placement], lent: Lent, canvas: &mut [u8]) -> Answer {
    let room = lent.room.min(canvas.len());
    let (width, height) = (lent.width, lent.height);
    canvas::lay(
        cut(frame, lent.frame),
        list,
        width,
        height,
        &mut canvas[..room],
    )
}

// Lays the first `count` of a list; the others are not lent. Prints what was lent, the answer, each entry that was lent, how many of the others
// are as they were, the sum of the canvas's bytes and of those behind it, and from where on they were kept.
fn run(rt: &impl Print, lent: Lent, list: &[Placement; 33], count: usize) -> io::Result<()> {
    let mut frame = [0u8; 49200];
    let mut buffer = [0u8; 65800];
    lay(&mut frame, 0, 1, 61);
    mark(&mut buffer);
    let mut after = *list;
    let (laid, rest) = after.split_at_mut(count.min(33));
    let answer = lay_list(&frame, laid, lent, &mut buffer);
    print!(rt; "lay {count} on {} by {}", lent.width, lent.height)?;
    print!(rt;
        " canvas {} frame {}: {}",
        lent.room,
        lent.frame,
        Answered(answer)
    )?;
    for &entry in laid.iter() {
        print!(rt; ", {}", Entry(entry))?;
    }
    print!(rt; ", rest kept {}", kept(&list[laid.len()..], rest))?;
    println!(rt;
        ", sum {}, kept from {}",
        sum(&buffer),
        unchanged_from(&buffer)
    )
}

// A placement with marks for its counts.
fn at(left: usize, top: usize, across: usize, down: usize, x: i16, y: i16) -> Placement {
    Placement {
        left,
        top,
        across,
        down,
        x,
        y,
        on: 7001,
        cut: 9001,
    }
}

// A canvas, and the frame without the bytes behind it.
fn on(width: usize, height: usize, room: usize) -> Lent {
    Lent {
        frame: 49152,
        width,
        height,
        room,
    }
}

// == One placement.

// A rectangle of 9 by 7, and the whole frame.
const PLAN: [usize; 4] = [30, 40, 9, 7];

const WHOLE: [usize; 4] = [0, 0, 256, 192];

// A rectangle, the canvas's sides and bytes, and the corner from which on it is laid.
type Row = ([usize; 4], usize, usize, usize, i16, i16);

// Cut at no edge, at each edge and at each corner, down to the pixel in it that is left; then wholly off: just past each edge, and as far as a position goes.
const EDGES: [(i16, i16); 25] = [
    (5, 3),
    (0, 0),
    (11, 5),
    (-4, 3),
    (15, 3),
    (5, -2),
    (5, 9),
    (-4, -2),
    (-8, -6),
    (15, -2),
    (19, -6),
    (-4, 9),
    (-8, 11),
    (15, 9),
    (19, 11),
    (-9, 3),
    (20, 3),
    (5, -7),
    (5, 12),
    (-32768, 3),
    (32767, 3),
    (5, -32768),
    (5, 32767),
    (-32768, 32767),
    (32767, -32768),
];

// Canvases of one column, of one line and of one pixel, others that are narrower than what is laid, and the whole frame on some as large as it and larger.
const SHAPES: [Row; 17] = [
    (PLAN, 1, 65536, 65536, 0, 32767),
    (PLAN, 1, 65536, 65536, -8, -6),
    (WHOLE, 1, 65536, 65536, -4, 32767),
    (PLAN, 65536, 1, 65536, 32767, 0),
    (PLAN, 65536, 1, 65536, -8, -6),
    (WHOLE, 65536, 1, 65536, 32767, -4),
    (PLAN, 2, 32768, 65536, -3, 32767),
    (PLAN, 32768, 2, 65536, 32767, -3),
    (PLAN, 1, 1, 1, -8, -6),
    (WHOLE, 1, 1, 1, -255, -191),
    (WHOLE, 5, 65, 325, -20, 3),
    (WHOLE, 256, 192, 49152, 0, 0),
    (WHOLE, 256, 256, 65536, 0, 0),
    (WHOLE, 256, 256, 65536, 0, 64),
    (WHOLE, 256, 256, 65536, -1, 65),
    (WHOLE, 256, 192, 49152, 255, -191),
    (WHOLE, 256, 192, 49152, -256, 0),
];

// Canvases that have a pixel less or more than their sides say, a side of 0, or more than 65,536 pixels, and right ones among them; then sides whose product is past 64 bits, where it would come round to what is lent.
const CANVASES: [(usize, usize, usize); 18] = [
    (20, 12, 239),
    (20, 12, 241),
    (20, 12, 0),
    (12, 20, 240),
    (0, 12, 0),
    (20, 0, 0),
    (0, 12, 12),
    (20, 0, 20),
    (65537, 1, 65537),
    (1, 65537, 65537),
    (256, 257, 65792),
    (256, 256, 65536),
    (4294967296, 4294967296, 0),
    (9223372036854775808, 2, 0),
    (18446744073709551615, 18446744073709551615, 1),
    (72057594037928192, 256, 65536),
    (18446744073709551615, 1, 240),
    (1, 18446744073709551615, 240),
];

// Rectangles that are empty, one column or one line outside, and within the frame up to its last pixel; then some so large, or so far, that left and across, or top and down, would come round.
const RECTANGLES: [[usize; 4]; 22] = [
    [30, 40, 0, 7],
    [30, 40, 9, 0],
    [256, 192, 0, 0],
    [250, 40, 7, 7],
    [250, 40, 6, 7],
    [256, 40, 1, 1],
    [0, 0, 257, 192],
    [30, 190, 9, 3],
    [30, 190, 9, 2],
    [30, 192, 1, 1],
    [0, 0, 256, 193],
    [254, 190, 2, 2],
    [300, 200, 9, 7],
    [18446744073709551615, 0, 1, 1],
    [18446744073709551615, 0, 2, 1],
    [0, 18446744073709551615, 1, 1],
    [0, 18446744073709551615, 1, 2],
    [0, 0, 18446744073709551615, 1],
    [1, 0, 18446744073709551615, 1],
    [0, 0, 1, 18446744073709551615],
    [0, 1, 1, 18446744073709551615],
    [0, 0, 4294967296, 4294967296],
];

// Lays one rectangle.
fn single(rt: &impl Print, row: Row) -> io::Result<()> {
    let ([left, top, across, down], width, height, room, x, y) = row;
    let list = [at(left, top, across, down, x, y); 33];
    run(rt, on(width, height, room), &list, 1)
}

// At every edge of a canvas of 20 by 12.
fn edges(rt: &impl Print) -> io::Result<()> {
    for (x, y) in EDGES {
        single(rt, (PLAN, 20, 12, 240, x, y))?;
    }
    Ok(())
}

// On canvases of all shapes.
fn shapes(rt: &impl Print) -> io::Result<()> {
    for row in SHAPES {
        single(rt, row)?;
    }
    Ok(())
}

// On canvases that are refused, and others.
fn canvases(rt: &impl Print) -> io::Result<()> {
    for (width, height, room) in CANVASES {
        single(rt, (PLAN, width, height, room, -2, -1))?;
    }
    Ok(())
}

// Rectangles that are refused, and others, cut at the top left corner of the canvas.
fn rectangles(rt: &impl Print) -> io::Result<()> {
    for rectangle in RECTANGLES {
        single(rt, (rectangle, 20, 12, 240, -1, -1))?;
    }
    Ok(())
}

// == Lists.

// The first `count` of a list, on a canvas of 64 by 48.
fn several(rt: &impl Print, list: &[Placement; 33], count: usize) -> io::Result<()> {
    run(rt, on(64, 48, 3072), list, count)
}

// Two placements, the second over the first.
fn two(rt: &impl Print, p: Placement, q: Placement) -> io::Result<()> {
    let mut list = [q; 33];
    list[0] = p;
    several(rt, &list, 2)
}

// Later placements cover earlier ones: in part, either over the other, wholly, where both are cut, and not where they are off.
fn layers(rt: &impl Print) -> io::Result<()> {
    let p = at(30, 40, 9, 7, 2, 2);
    let q = at(90, 80, 6, 8, 7, 1);
    two(rt, p, q)?;
    two(rt, q, p)?;
    two(rt, at(90, 80, 4, 4, 4, 3), p)?;
    two(rt, p, p)?;
    two(rt, at(30, 40, 9, 7, -3, -2), at(90, 80, 6, 8, -2, -4))?;
    two(rt, p, at(90, 80, 6, 8, 64, 1))
}

// Eight plans: the whole frame below, then one within, one cut at each edge, the last pixel on the last, one off and one over another.
fn mixed() -> [Placement; 33] {
    let mut list = [at(7, 7, 7, 7, 7, 7); 33];
    list[0] = at(0, 0, 256, 192, -100, -60);
    list[1] = at(10, 20, 30, 12, 5, 6);
    list[2] = at(200, 100, 40, 20, 50, 40);
    list[3] = at(100, 100, 16, 16, -7, 30);
    list[4] = at(255, 191, 1, 1, 63, 47);
    list[5] = at(0, 0, 5, 5, 64, 0);
    list[6] = at(3, 4, 20, 10, 10, -4);
    list[7] = at(10, 20, 30, 12, 8, 9);
    list
}

// The eight and the first five of them; then another in the place of the frame, and one that is outside.
fn mixes(rt: &impl Print) -> io::Result<()> {
    let mut list = mixed();
    several(rt, &list, 8)?;
    several(rt, &list, 5)?;
    list[0] = at(250, 0, 6, 48, 40, 0);
    several(rt, &list, 8)?;
    list[6] = at(250, 0, 7, 48, 40, 0);
    several(rt, &list, 8)?;
    several(rt, &list, 6)
}

// A list of stairs: each plan further to the right and down, so that some lie over the one before and the last are cut or off.
fn stairs() -> [Placement; 33] {
    let mut list = [at(0, 0, 1, 1, 0, 0); 33];
    for (k, plan) in list.iter_mut().enumerate() {
        *plan = at(
            k * 7,
            k * 5,
            k % 5 + 4,
            k % 3 + 3,
            (k * 3) as i16,
            (k * 2) as i16,
        );
    }
    list
}

// Lists of none, of one, of as many as may be and of one more; with marred ones, of which the first is told, and which are not looked at past the list's end.
fn lists(rt: &impl Print) -> io::Result<()> {
    let mut list = stairs();
    several(rt, &list, 0)?;
    several(rt, &list, 1)?;
    several(rt, &list, 32)?;
    several(rt, &list, 33)?;
    list[32] = at(0, 0, 0, 1, 0, 0);
    several(rt, &list, 32)?;
    list[31] = at(0, 0, 256, 193, 0, 0);
    several(rt, &list, 31)?;
    several(rt, &list, 32)?;
    several(rt, &list, 33)?;
    list[7] = at(0, 0, 1, 0, 0, 0);
    several(rt, &list, 32)?;
    list[0] = at(256, 0, 1, 1, -32768, -32768);
    several(rt, &list, 3)
}

// == The order of the refusals.

// Each with all that come after it, with the next one, and alone; then a frame with bytes behind it.
const ORDERS: [(usize, usize, usize, usize); 13] = [
    (49151, 0, 239, 33),
    (49151, 20, 239, 2),
    (49151, 20, 240, 2),
    (49151, 20, 240, 0),
    (0, 20, 240, 2),
    (49152, 0, 239, 33),
    (49152, 20, 239, 3),
    (49152, 20, 239, 0),
    (49152, 20, 240, 33),
    (49152, 20, 240, 32),
    (49152, 20, 240, 2),
    (49152, 20, 240, 0),
    (49200, 20, 240, 2),
];

// As many placements as told, those from the third on empty, with a frame and a canvas of 12 lines as told.
fn orders(rt: &impl Print) -> io::Result<()> {
    let mut list = [at(30, 40, 0, 7, 2, 2); 33];
    list[0] = at(30, 40, 9, 7, 2, 2);
    list[1] = at(90, 80, 6, 8, 7, 1);
    for (frame, width, room, count) in ORDERS {
        let lent = Lent {
            frame,
            width,
            height: 12,
            room,
        };
        run(rt, lent, &list, count)?;
    }
    Ok(())
}

fn main(rt: HostRuntime) -> io::Result<()> {
    let rt = Output { rt };
    edges(&rt)?;
    shapes(&rt)?;
    canvases(&rt)?;
    rectangles(&rt)?;
    layers(&rt)?;
    mixes(&rt)?;
    lists(&rt)?;
    orders(&rt)
}
