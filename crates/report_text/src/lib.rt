// The report's text, whole.
#![tactic(auto)]

ghost use Rattle.std.specs.Prelude.{◌≡◌, ◌==◌, ◌+◌, ◌≤◌, ◌<◌, [], ◌++◌, length, drop};
ghost use Rattle.answer.specs.Told.{told_by, told_of};
ghost use Rattle.text.specs.Hex.{hex_digit, hex};
ghost use Rattle.grammar.specs.Sheet.{rule_digit, nl};
ghost use Rattle.grammar.specs.Given.{fields_in};
ghost use Rattle.intake.specs.Intake.{settings_in};
ghost use Rattle.report_text.specs.Words.{decimal, text_of, held, HasRoom};
ghost use Rattle.report_text.specs.Report.{setting_lines, annotated, text_for, report_of, report_after};

use answer::{Answer, Refusal};
use intake::Intake;
use settings::{Rule, Settings};

// The report's own keys; `deed=`, `pins=` and `rule=` are the sheet's.
const STATUS_KEY: [u8; 7] = *b"status=";

const PLACE_KEY: [u8; 6] = *b"place=";

const CONTROL_KEY: [u8; 8] = *b"control=";

const MODE_KEY: [u8; 5] = *b"mode=";

const START_KEY: [u8; 6] = *b"start=";

const ANNOTATIONS_KEY: [u8; 12] = *b"annotations=";

// A report: the first `len` bytes, the rest 0.
// Kept as bytes and a length: because `text_of`, the promise of `report`, fixes the bytes behind the text too, and `report` takes no allocator and cannot fail.
#[derive(Drop)]
pub struct Text {
    pub bytes: [u8; 32768],
    pub len: usize,
}

// The digits of a number: those from `from` on.
// Kept as an array with a place, and digits by hand: because the library takes no allocator, and `write!` promises its text only where it
// answers `Ok`, while `report` promises the text of every sheet and cannot fail.
#[derive(Clone, Copy)]
struct Digits {
    bytes: [u8; 20],
    from: usize,
}

// A number in decimal.
// Kept as a `while`: because each turn divides what is left, and how many there are no range or iterator counts.
fn decimal(n: usize) -> Digits
    ensures { (drop result.from result.bytes ≡ decimal n) × (result.from ≤ 20) × (length result.bytes ≡ 20) }
{
    let mut bytes = [0u8; 20];
    let mut from: usize = 20;
    let mut rest = n;
    while 10 <= rest {
        from -= 1;
        bytes[from] = b'0' + (rest % 10) as u8;
        rest /= 10;
    }
    from -= 1;
    bytes[from] = b'0' + rest as u8;
    Digits { bytes, from }
}

// The byte of a hex digit.
// Kept as a function: because `char::from_digit` gives small letters, and a report has capitals.
fn hex_digit(d: u16) -> u8
    requires { d < 16 }
    ensures { result ≡ hex_digit d }
{
    if d < 10 {
        b'0' + d as u8
    } else {
        b'A' + (d as u8 - 10)
    }
}

// A number in four hex digits.
fn hex(n: u16) -> [u8; 4]
    ensures { result ≡ hex 4 n }
{
    [
        hex_digit(n / 4096),
        hex_digit(n % 4096 / 256),
        hex_digit(n % 4096 % 256 / 16),
        hex_digit(n % 4096 % 256 % 16),
    ]
}

// The digit of a rule.
// Kept as a function: because a `From` would stand in `settings`, beside `Rule`, which knows nothing of a text's digits.
fn rule_digit(rule: Rule) -> u8
    ensures { result ≡ rule_digit rule }
{
    match rule {
        Rule::One => b'1',
        Rule::Two => b'2',
    }
}

// Each method below appends to the text.
// Kept as clauses and no ghost field: because `text_of`, in the promise of `report`, makes a `Text` of any list, also one with no room in the array.
impl Text {
    // A text that holds nothing yet.
    fn new() -> Text
        ensures { result ≡ text_of [] }
    {
        Text {
            bytes: [0; 32768],
            len: 0,
        }
    }

    // Appends a part.
    fn append(&mut self, part: &[u8])
        requires { HasRoom self.old (length part.now) }
        ensures { self.new ≡ text_of (held self.old ++ part.now) }
    {
        let end = self.len + part.len();
        self.bytes[self.len..end].copy_from_slice(part);
        self.len = end;
    }

    // Appends a line: a word with its `=`, a value, and the line end.
    fn line(&mut self, word: &[u8], value: &[u8])
        requires { HasRoom self.old (length word.now + (length value.now + 1)) }
        ensures { self.new ≡ text_of (held self.old ++ (word.now ++ (value.now ++ nl))) }
    {
        self.append(word);
        self.append(value);
        self.append(b"\n");
    }

    // Appends a line with a number in decimal for its value.
    fn number_line(&mut self, word: &[u8], n: usize)
        requires { HasRoom self.old (length word.now + 21) }
        ensures { self.new ≡ text_of (held self.old ++ (word.now ++ (decimal n ++ nl))) }
    {
        let digits = decimal(n);
        self.line(word, &digits.bytes[digits.from..]);
    }

    // Appends the lines of the settings: pins, control and rule, and the mode and the start that follow from them.
    fn setting_lines(&mut self, settings: Settings)
        requires { HasRoom self.old 65 }
        ensures { self.new ≡ text_of (held self.old ++ setting_lines settings) }
    {
        let pins = hex(u16::from(settings.look.pins));
        self.line(&scan::PINS_KEY, &pins[2..]);
        let control = hex(settings.word);
        self.line(&CONTROL_KEY, &control);
        self.line(&scan::RULE_KEY, &[rule_digit(settings.rule)]);
        let name = settings::mode_name(settings.look);
        let letters = &name.bytes[..name.len];
        self.line(&MODE_KEY, letters);
        let first = counter::start(settings);
        let start = hex(first.address);
        self.line(&START_KEY, &start);
    }

    // Appends the number of annotations, and the annotation lines as they stand in the sheet.
    fn annotations(&mut self, sheet: &[u8], count: usize)
        requires room { HasRoom self.old 28200 }
        requires count_value { count ≡ length (fields_in sheet.now).annotations }
        ensures { self.new ≡ text_of (held self.old ++ annotated sheet.now) }
    {
        self.number_line(&ANNOTATIONS_KEY, count);
        self.append(sheet::tail(sheet));
    }
}

// Whether a sheet is refused as broken.
fn is_broken(refusal: Refusal) -> bool
    ensures { result ≡ ((told_by refusal).number == 11) }
{
    answer::number(Err(refusal)) == 11
}

// The text where an answer is told of a sheet, by what was taken in of it.
fn text_for(sheet: &[u8], taken: Intake, answer: Answer) -> Text
    requires count_value { taken.annotations ≡ length (fields_in sheet.now).annotations }
    requires settings_value { (told_of answer).number ≡ 0 → taken.settings ≡ settings_in sheet.now }
    ensures { result ≡ text_of (text_for (told_of answer) sheet.now) }
{
    let number = answer::number(answer);
    let mut text = Text::new();
    text.number_line(&STATUS_KEY, usize::from(number));
    let Err(refusal) = answer else {
        text.line(&scan::DEED_KEY, sheet::deed(sheet));
        text.setting_lines(taken.settings);
        text.annotations(sheet, taken.annotations);
        return text;
    };
    text.number_line(&PLACE_KEY, answer::place(answer));
    if is_broken(refusal) {
        return text;
    }
    text.line(&scan::DEED_KEY, sheet::deed(sheet));
    text.annotations(sheet, taken.annotations);
    text
}

// The report of a sheet.
pub fn report(sheet: &[u8]) -> Text
    ensures { result ≡ text_of (report_of sheet.now) }
{
    let taken = intake::settings_of(sheet);
    let answer = taken.answer;
    text_for(sheet, taken, answer)
}

// The report of a sheet after an operation on its record gave this answer; the sheet's own refusal stands first.
pub fn report_after(sheet: &[u8], answer: Answer) -> Text
    ensures { result ≡ text_of (report_after sheet.now (told_of answer)) }
{
    let taken = intake::settings_of(sheet);
    let own = taken.answer;
    // Kept by `check`: because `report_after`, its promise, is said by `after`, as that of `check` is.
    let told = answer::check(own, true, answer);
    text_for(sheet, taken, told)
}
