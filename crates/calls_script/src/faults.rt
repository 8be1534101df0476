// What can be wrong with a script, as it is printed.
use std::error::Error;
use std::fmt;

#[derive(Clone, Copy, Debug, PartialEq, Eq)]
pub enum Fault {
    Strange,
    TooLarge,
    NoCall,
    Sign,
    LongTable,
    LongCall,
    Cut,
}

impl fmt::Display for Fault {
    fn fmt<W: fmt::Write>(&self, f: &mut fmt::Formatter<W>) -> fmt::Result {
        f.write_str(match self {
            Fault::Strange => "not a number",
            Fault::TooLarge => "too large",
            Fault::NoCall => "no such call",
            Fault::Sign => "a minus where none may stand",
            Fault::LongTable => "a table too long",
            Fault::LongCall => "a call too long",
            Fault::Cut => "the input ends within a call",
        })
    }
}

impl Error for Fault {}
