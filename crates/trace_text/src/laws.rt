//! What is printed is read again.

ghost use Rattle.trace_text.specs.RoundTrip.{NoteLinesAreRead, TurnsLinesAreRead, UseLinesAreRead, OnlyPrintedIsRead};

/// The line of a note, as [`crate::line`] makes it, says its two counts and the note. It does so
/// for each note within the ranges of a line: those of [`crate::parse_line`].
pub fn note_lines_are_read()
    ensures { NoteLinesAreRead }
{}

/// The line that ends a trace whose turns are over says its two counts and that.
pub fn turns_lines_are_read()
    ensures { TurnsLinesAreRead }
{}

/// The line of a use says its two counts and the instruction's number.
pub fn use_lines_are_read()
    ensures { UseLinesAreRead }
{}

/// No bytes are read but the line that is printed of what they say, so a line has one form.
pub fn only_printed_is_read()
    ensures { OnlyPrintedIsRead }
{}
