//! What a run wrote, as far as there is something to say of it.

/// The texts in which a line may be faulty.
#[derive(Clone, Copy)]
pub enum LinedText {
    Entry,
    Table,
    Claims,
}

impl LinedText {
    /// What it is called.
    pub fn name(self) -> &'static str {
        match self {
            LinedText::Entry => "entry",
            LinedText::Table => "table",
            LinedText::Claims => "claims",
        }
    }
}

/// What a run wrote.
#[derive(Clone, Copy)]
pub enum Written<'a> {
    /// That its words have no meaning.
    BadWords,
    /// The first fault of the specification, at this byte.
    SpecFault {
        at: usize,
        code: &'a str,
    },
    /// The first fault of a text of lines, at the line of this number. It is 0 where no line has it.
    LineFault {
        text: LinedText,
        number: usize,
        code: &'a str,
    },
    /// The first fault of the code.
    CodeFault {
        code: &'a str,
    },
    /// Another line of which there is a sentence under this code.
    Line {
        code: &'static str,
    },
    /// The head of a table, and no block.
    NoBlock,
    /// The last state of a run that made no step, since its counter is no address of the code.
    NoStep,
    /// A listing in which no word has a decoding.
    NothingDecoded,
    /// An answer.
    Answer,
}

/// What the front of an answer or a refusal is.
pub fn read(front: &str) -> Written<'_> {
    let (line, rest) = front.split_once('\n').unwrap_or((front, ""));
    let (first, others) = line.split_once(' ').unwrap_or((line, ""));
    match first {
        "spec" => spec_fault(others),
        "entry" => line_fault(LinedText::Entry, others),
        "table" => line_fault(LinedText::Table, others),
        "claims" => line_fault(LinedText::Claims, others),
        "code" => Written::CodeFault { code: others },
        "undecodable" => Written::Line {
            code: "undecodable",
        },
        "rejected" => rejection(others),
        "tsl-table" if !rest.contains("\nat ") => Written::NoBlock,
        _ => other_line(line, front),
    }
}

/// `AT CODE ..` behind `spec`.
fn spec_fault(text: &str) -> Written<'_> {
    let (at, fault) = text.split_once(' ').unwrap_or((text, ""));
    let (code, _) = fault.split_once(' ').unwrap_or((fault, ""));
    match at.parse::<usize>() {
        Ok(at) => Written::SpecFault { at, code },
        Err(_) => Written::Answer,
    }
}

/// `N CODE ..` behind the name of a text.
fn line_fault(text: LinedText, fault: &str) -> Written<'_> {
    let (number, fault) = fault.split_once(' ').unwrap_or((fault, ""));
    let (code, _) = fault.split_once(' ').unwrap_or((fault, ""));
    match number.parse::<usize>() {
        Ok(number) => Written::LineFault { text, number, code },
        Err(_) => Written::Answer,
    }
}

/// Why a table is rejected.
fn rejection(text: &str) -> Written<'_> {
    let (why, _) = text.split_once(' ').unwrap_or((text, ""));
    match why {
        "entry" => Written::Line {
            code: "rejected entry",
        },
        "targets" => Written::Line {
            code: "rejected targets",
        },
        "use" => Written::Line {
            code: "rejected use",
        },
        "open" => Written::Line {
            code: "rejected open",
        },
        _ => Written::Answer,
    }
}

/// Any other line.
fn other_line<'a>(line: &'a str, front: &'a str) -> Written<'a> {
    if line == "bad words" {
        Written::BadWords
    } else if line == "calls spent" {
        Written::Line {
            code: "calls spent",
        }
    } else if line.starts_with("targets ") {
        Written::Line { code: "targets" }
    } else if line.starts_with("cannot read ") {
        Written::Line {
            code: "cannot read",
        }
    } else if line.starts_with("too long ") {
        Written::Line { code: "too long" }
    } else if line == "# stop left steps 0" {
        Written::NoStep
    } else if line.starts_with("# stop undecodable ") {
        Written::Line {
            code: "stop undecodable",
        }
    } else if line.starts_with("# stop calls ") {
        Written::Line { code: "stop calls" }
    } else if is_undecoded(front) {
        Written::NothingDecoded
    } else {
        Written::Answer
    }
}

/// Whether the front of a listing has lines, and each whole one ends with a `-` alone.
fn is_undecoded(front: &str) -> bool {
    match front.rsplit_once('\n') {
        Some((lines, _)) => lines.split('\n').all(|line| line.ends_with(" -")),
        None => false,
    }
}
