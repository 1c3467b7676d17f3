// Shows how servers read a text that differ by one habit each: the text comes on standard input, and for each habit the requests are printed that a
// server with it cuts out of the text. All of the text is held, and the output of one habit at a time.
#![tactic(auto)]

use forgiving::habit::Habit;
use forgiving_laws::read_text;
use report::tell;
use std::alloc::{AllocError, Global};
use std::io;
use std::io::{Read, Write};

// The habits, in the order of their numbers.
const HABITS: [Habit; 14] = [
    Habit::LoneLf,
    Habit::LoneCr,
    Habit::EmptyLines,
    Habit::SpaceBeforeColon,
    Habit::LowLine,
    Habit::GoesOn,
    Habit::Octal,
    Habit::FirstLength,
    Habit::LastLength,
    Habit::AddedLengths,
    Habit::GetBody,
    Habit::NoChunks,
    Habit::UndoneTwice,
    Habit::CutParts,
];

// A habit in words.
fn words(habit: Habit) -> &'static str {
    match habit {
        Habit::LoneLf => "a lone LF ends a line",
        Habit::LoneCr => "a lone CR ends a line",
        Habit::EmptyLines => "empty lines before a request are skipped",
        Habit::SpaceBeforeColon => "space before the colon is cut",
        Habit::LowLine => "a low line in a name is a hyphen",
        Habit::GoesOn => "a line that begins with a space goes on with the last",
        Habit::Octal => "lengths are read in octal after a zero",
        Habit::FirstLength => "the first of two lengths counts",
        Habit::LastLength => "the last of two lengths counts",
        Habit::AddedLengths => "both of two lengths are added",
        Habit::GetBody => "the body of a GET is passed over",
        Habit::NoChunks => "chunked is never understood",
        Habit::UndoneTwice => "codes in a path are undone twice",
        Habit::CutParts => "parts are cut at ;",
    }
}

// The requests that a server with this habit cuts out of the input, as lines of text.
fn told(heap: Global, habit: Habit, input: &[u8]) -> Result<Vec<u8>, AllocError> {
    let mut text = Vec::new(heap);
    for request in &read_text(habit, heap, input)? {
        tell(request, &mut text)?;
    }
    Ok(text)
}

fn main(rt: HostRuntime) -> io::Result<()> {
    let mut input = Vec::new(rt.alloc());
    rt.stdin().read_to_end(&mut input)?;
    let mut output = rt.stdout();
    for (number, habit) in (1..).zip(HABITS) {
        writeln!(output, "habit {number}: {}", words(habit))?;
        output.write_all(&told(rt.alloc(), habit, &input)?)?;
    }
    Ok(())
}
