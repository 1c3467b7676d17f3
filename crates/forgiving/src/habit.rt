// The habits by name.

// A way in which servers forgive. The first twelve are habits of reading requests, the last two of viewing a path.
#[derive(Clone, Copy)]
pub enum Habit {
    // a lone LF ends a line
    LoneLf,
    // a lone CR does
    LoneCr,
    // empty lines before a request are skipped
    EmptyLines,
    // space before the colon is cut
    SpaceBeforeColon,
    // a low line in a name is a hyphen
    LowLine,
    // a line that begins with a space goes on with the last
    GoesOn,
    // lengths are read in octal after a zero
    Octal,
    // the first of two lengths counts
    FirstLength,
    // the last does
    LastLength,
    // both are added
    AddedLengths,
    // the body of a GET is passed over
    GetBody,
    // chunked is never understood
    NoChunks,
    // codes in a path are undone twice
    UndoneTwice,
    // parts are cut at `;`
    CutParts,
}
