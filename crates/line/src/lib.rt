// A line of a house file by itself: capital hexadecimal digits and a line feed make a frame, and a frame of a known kind says the size, a clause or
// the count. Of what was read it takes the stage alone, by which a kind is in its place, and it takes no store. Refused here, by the first test that
// fails: 8, no frame; 9, sum; 10, kind; 11, length. The line is read by index and the frame never built, since there is no memory but what is lent.
// Every private function that reads a part of the line requires that it lies within.
#![tactic(auto)]

ghost use Rattle.std.specs.Prelude.{◌≡◌, ◌+◌, ◌<◌, ◌≤◌, length};
ghost use Rattle.line.specs.Text.{digit, sum, number};
ghost use Rattle.line.specs.Says.{in_place, width, length_for, says};
ghost use Rattle.line.specs.Told.{number_of, said_of};
ghost use Rattle.line.specs.Inner.{byte_at, frame_at, SumAt, NumberAt, Framed};

use base::Refusal;

// Which list a clause is of.
#[derive(Clone, Copy, Debug, PartialEq, Eq)]
pub enum List {
    Start,
    Step,
    Bad,
}

// What a line says by itself: the size, a clause, or the count of clause lines.
#[derive(Clone, Copy, Debug, PartialEq, Eq)]
pub enum Line {
    Size(u32),
    Clause { list: List, ones: u64, zeros: u64 },
    Count(u32),
}

// The value of a digit, 16 if it is none.
// Stays: the definition `digit` gives every byte a number, and a frame is read of bytes that were seen to be digits.
fn digit_value(c: u8) -> u32
    ensures { result ≡ digit c }
{
    if 48 <= c && c <= 57 {
        return c as u32 - 48;
    }
    if 65 <= c && c <= 70 {
        return c as u32 - 55;
    }
    16
}

// The byte that two digits make.
fn byte_at(line: &[u8], at: usize) -> u32
    requires { at + 1 < length line.now }
    ensures { result ≡ byte_at line.now at }
{
    16 * digit_value(line[at]) + digit_value(line[at + 1])
}

// How many bytes the frame of a line has; none if the line is malformed: not pairs of digits with a line feed, empty, or over 36 digits.
fn frame_length(line: &[u8]) -> Option<usize>
    ensures { Framed line.now result }
{
    let [digits @ .., last] = line else {
        return None;
    };
    if *last != b'\n' {
        return None;
    }
    let len = digits.len();
    if len == 0 || base::MOST_DIGITS < len || len % 2 != 0 {
        return None;
    }
    for c in digits {
        if digit_value(*c) == 16 {
            return None;
        }
    }
    Some(len / 2)
}

// The sum of a frame's bytes.
// Stays: the count beside the line, here and in `number_at`: of a slice it would have to be shown that it is even and within the line, which `SumAt` says.
fn sum_of(line: &[u8], count: usize) -> u32
    requires { SumAt line.now count }
    ensures { result ≡ sum (frame_at line.now 0 count) }
{
    let mut total = 0;
    for j in 0..count {
        total += byte_at(line, 2 * j);
    }
    total
}

// A number of at most eight bytes, the high byte first.
fn number_at(line: &[u8], at: usize, count: usize) -> u64
    requires { NumberAt line.now at count }
    ensures { result ≡ number 0 (frame_at line.now at count) }
{
    let mut high = 0;
    for j in 0..count {
        high = 256 * high + byte_at(line, at + 2 * j) as u64;
    }
    high
}

// Whether a kind is known and in its place.
// Stays: a kind is the first byte of a line, any byte, and the definitions `in_place`, `width` and `length_for` speak of every one.
fn in_place(stage: u32, kind: u32) -> bool
    ensures { result ≡ in_place stage kind }
{
    if stage == 0 {
        return kind == 0;
    }
    if kind < stage {
        return false;
    }
    if 1 <= kind && kind <= 3 {
        return true;
    }
    kind == 15
}

// How many bytes a mask of this kind has.
fn mask_width(kind: u32) -> usize
    ensures { result ≡ width kind }
{
    if kind == 2 { 8 } else { 4 }
}

// How many bytes a frame of this kind has.
fn length_for(kind: u32) -> usize
    ensures { result ≡ length_for kind }
{
    if kind == 0 {
        return 3;
    }
    if kind == 15 {
        return 4;
    }
    2 + 2 * mask_width(kind)
}

// The list of a clause's kind.
fn list_of(kind: u32) -> List
    requires { (1 ≤ kind) × (kind ≤ 3) }
    ensures { number_of result ≡ kind }
{
    match kind {
        1 => List::Start,
        2 => List::Step,
        _ => List::Bad,
    }
}

// What a line says behind a stage; every slice has its answer, with or without a line feed.
// Stays: the stage is a number, since `parse` answers for every one; an enum would ask more of its callers.
pub fn parse(line: &[u8], stage: u32) -> Result<Line, Refusal>
    ensures { said_of result ≡ says line.now stage }
{
    let Some(count) = frame_length(line) else {
        return Err(Refusal::Digits);
    };
    if sum_of(line, count) % 256 != 0 {
        return Err(Refusal::Sum);
    }
    let kind = byte_at(line, 0);
    if !in_place(stage, kind) {
        return Err(Refusal::Kind);
    }
    if count != length_for(kind) {
        return Err(Refusal::Length);
    }
    if kind == 0 {
        return Ok(Line::Size(byte_at(line, 2)));
    }
    if kind == 15 {
        return Ok(Line::Count(number_at(line, 2, 2) as u32));
    }
    let width = mask_width(kind);
    Ok(Line::Clause {
        list: list_of(kind),
        ones: number_at(line, 2, width),
        zeros: number_at(line, 2 + 2 * width, width),
    })
}
