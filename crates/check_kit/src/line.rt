// The line that the check program prints, as bytes at the start of a lent space. No heap is used, and the promise names the bytes (`Puts`): std's `write!` into a slice promises neither the bytes nor that it succeeds where there is room, so the line is put by these functions.
ghost use Rattle.std.specs.Prelude.{◌++◌, ◌+◌, ◌≤◌, length};
ghost use Rattle.entries.specs.PrintedLine.{decimal, printed_line};
ghost use Rattle.check_kit.specs.Line.{Puts};

use answers::Answer;
use words::copy_in;

// A text from a place on. Each of these functions gives the place behind what it puts.
fn put_text(line: &mut [u8], at: usize, text: &[u8]) -> usize
    requires { at + length text.now ≤ length line.old }
    ensures { Puts line.old at text.now line.new result }
{
    copy_in(line, at, text, 0, text.len());
    at + text.len()
}

// A number in base ten.
fn put_decimal(line: &mut [u8], at: usize, n: u32) -> usize
    requires { at + 10 ≤ length line.old }
    ensures { Puts line.old at (decimal n) line.new result }
{
    let mut digits = [0u8; 20];
    let count = io::decimal(n as u64, &mut digits);
    put_text(line, at, &digits[..count])
}

// A text and a number.
fn put_number(line: &mut [u8], at: usize, text: &[u8], n: u32) -> usize
    requires { at + length text.now + 10 ≤ length line.old }
    ensures { Puts line.old at (text.now ++ decimal n) line.new result }
{
    let next = put_text(line, at, text);
    put_decimal(line, next, n)
}

// The start of a line: three numbers, each behind its text.
fn put_numbers(
    line: &mut [u8],
    first: &[u8],
    a: u32,
    second: &[u8],
    b: u32,
    third: &[u8],
    c: u32,
) -> usize
    requires { length first.now + length second.now + length third.now + 30 ≤ length line.old }
    ensures { Puts line.old 0 (first.now ++ decimal a ++ second.now ++ decimal b ++ third.now ++ decimal c) line.new result }
{
    let mut at = put_number(line, 0, first, a);
    at = put_number(line, at, second, b);
    put_number(line, at, third, c)
}

// The line of an answer: term fields, uses, remaining goals and different rules used of an accepted proof; number, file and place of a refusal.
pub fn put_line(line: &mut [u8], answer: Answer) -> usize
    requires { 80 ≤ length line.old }
    ensures { Puts line.old 0 (printed_line answer) line.new result }
{
    if answer.number == 0 {
        let at = put_numbers(
            line,
            b"accepted fields ",
            answer.fields,
            b" uses ",
            answer.uses,
            b" open ",
            answer.remaining,
        );
        let next = put_number(line, at, b" rules ", answer.rules);
        put_text(line, next, b"\n")
    } else {
        let at = put_numbers(
            line,
            b"refused ",
            answer.number,
            b" file ",
            answer.file,
            b" place ",
            answer.place,
        );
        put_text(line, at, b"\n")
    }
}
