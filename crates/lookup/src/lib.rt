// Notes that stand on the cover: which of two sheets has a key, and the first value under it as a part of that sheet.
#![tactic(auto)]

ghost use Rattle.std.specs.Prelude.{◌≡◌, ◌==◌, ◌≤◌, true, length};
ghost use Rattle.std.specs.List.{list_any};
ghost use Rattle.answer.specs.Told.{told_of};
ghost use Rattle.grammar.specs.Given.{accepted, tail_from};
ghost use Rattle.lookup.specs.Lookup.{holder_told, held, HeldPart};
ghost use Rattle.lookup.specs.Steps.{to_line_end, keyed_by, alike, equals_first, found_in, LinesFrom, Finds};

use answer::{Answer, Refusal};
use scan::Span;

// A piece of one of the two sheets: of the cover or of the record's, from which byte on, and its number of bytes.
// Kept with `in_cover` beside the place: because `held` and `HeldPart`, in the promise of `value`, speak of this struct.
#[derive(Clone, Copy)]
struct Piece {
    in_cover: bool,
    from: usize,
    size: usize,
}

// Whether a line end is among 16 bytes.
fn ends_within(block: &[u8; 16]) -> bool
    ensures { result ≡ list_any (λ b. b == 10) block.now }
{
    block.contains(&b'\n')
}

// How many bytes stand before the first line end: blocks of 16 bytes in which there is none are passed.
fn line_end(s: &[u8]) -> usize
    ensures { result ≡ to_line_end s.now }
{
    let mut rest = s;
    while let Some((block, behind)) = rest.split_first_chunk::<16>() {
        if ends_within(block) {
            break;
        }
        rest = behind;
    }
    let near = rest.iter().position(|b| *b == b'\n');
    s.len() - rest.len() + near.unwrap_or(rest.len())
}

// How many bytes the key and a line's own key, which ends at its first `=`, begin with alike.
fn alike(line: &[u8], key: &[u8]) -> usize
    ensures value { result ≡ alike key.now line.now }
    ensures within { result ≤ length line.now }
{
    line.iter()
        .zip(key)
        .take_while(|pair| *pair.0 != b'=' && pair.0 == pair.1)
        .count()
}

// Whether an `=` stands first.
fn equals_first(rest: &[u8]) -> bool
    ensures { result ≡ equals_first rest.now }
{
    matches!(rest, [b'=', ..])
}

// Whether a line has the key: its own key is this one, whole. No more than that is compared, whatever else the key begins like.
fn has_key(line: &[u8], key: &[u8]) -> bool
    ensures { result ≡ keyed_by key.now line.now }
{
    let same = alike(line, key);
    same == key.len() && equals_first(&line[same..])
}

// The first value under the key in an accepted sheet, the annotation lines beginning at `from`.
// Kept with the sheet and a place: because the value is told by its place in the whole sheet.
fn seek(s: &[u8], from: usize, key: &[u8]) -> Option<Span>
    requires s_value { accepted s.now ≡ true }
    requires from_value { from ≡ tail_from s.now }
    ensures { result ≡ found_in s.now key.now }
{
    let mut at = from;
    // Kept as a `while`: because each turn goes on by the size of the line that it reads, which no range or iterator counts.
    while at < s.len() {
        let line = &s[at..];
        let size = line_end(line);
        if has_key(line, key) {
            let before = key.len() + 1;
            return Some(Span {
                from: at + before,
                size: size - before,
            });
        }
        at += size + 1;
    }
    None
}

// Where the annotation lines of an accepted sheet begin, or the refusal.
fn lines_from(sheet: &[u8]) -> Result<usize, Refusal>
    ensures { LinesFrom sheet.now result }
{
    match scan::survey(sheet) {
        Ok(outline) => Ok(outline.tail),
        Err(place) => Err(Refusal::BrokenSheet(place)),
    }
}

// Accepts both sheets, then asks the record's for the key, and only where it lacks it the cover: the piece that the value is, or the refusal.
// Kept with `record`, `cover` and `key` beside each other: because `holder` and `value` take them so.
fn find(record: &[u8], cover: &[u8], key: &[u8]) -> Result<Piece, Refusal>
    ensures { Finds «record».now cover.now key.now result }
{
    let of_record = lines_from(record)?;
    let of_cover = lines_from(cover)?;
    match seek(record, of_record, key) {
        Some(found) => Ok(Piece {
            in_cover: false,
            from: found.from,
            size: found.size,
        }),
        None => match seek(cover, of_cover, key) {
            Some(found) => Ok(Piece {
                in_cover: true,
                from: found.from,
                size: found.size,
            }),
            None => Err(Refusal::NoKey),
        },
    }
}

// Which sheet has the key: done with 0 where the record's has it, with 1 where only the cover has.
pub fn holder(record: &[u8], cover: &[u8], key: &[u8]) -> Answer
    ensures { told_of result ≡ holder_told «record».now cover.now key.now }
{
    let piece = find(record, cover, key)?;
    Ok(usize::from(piece.in_cover))
}

// The first value under the key, as a part of the sheet that `holder` names; where it refuses, an empty part of the record's sheet.
pub fn value<'a>(record: &'a [u8], cover: &'a [u8], key: &[u8]) -> &'a [u8]
    ensures { HeldPart «record».entry cover.entry (held «record».now cover.now key.now) result }
{
    match find(record, cover, key) {
        Ok(piece) if piece.in_cover => &cover[piece.from..piece.from + piece.size],
        Ok(piece) => &record[piece.from..piece.from + piece.size],
        Err(_) => &record[..0],
    }
}
