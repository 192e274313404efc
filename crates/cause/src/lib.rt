// For the programs that people call: what the system says of an error.
#![tactic(auto)]

use arrayvec::ArrayString;
use std::fmt::Write;
use std::{fmt, io};

// Without the number that std's text ends in.
#[derive(Clone, Copy)]
pub struct Cause(pub io::Error);

impl fmt::Display for Cause {
    fn fmt<W: fmt::Write>(&self, f: &mut fmt::Formatter<W>) -> fmt::Result {
        // The longest text fits. No heap: where memory is short, this may be what says so.
        let mut text = ArrayString::<320>::new();
        let _ = write!(text, "{}", self.0);
        let text = text.as_str();
        f.write_str(match text.rsplit_once(" (os error ") {
            Some((words, _)) => words,
            None => text,
        })
    }
}
