//! What is so of lines. Nothing runs.

ghost use Rattle.text_lines.specs.Laws.{LinesAreTheText, LinesOfBoth, LineOfText, LinesHaveNoEnd};

/// A text of which each line ends with LF is that of its lines.
pub fn lines_are_the_text()
    ensures { LinesAreTheText }
{}

/// A text behind one of which each line ends with LF adds its lines.
pub fn lines_of_both()
    ensures { LinesOfBoth }
{}

/// Bytes without LF, and LF behind them, are one line.
pub fn line_of_text()
    ensures { LineOfText }
{}

/// No line has LF in it.
pub fn lines_have_no_end()
    ensures { LinesHaveNoEnd }
{}
