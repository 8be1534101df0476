// The bytes of standard input, one number after another, and the line and byte that reading has come to.
ghost use Rattle.std.specs.Prelude.{◌≡◌};

use crate::faults::Fault;
use calls_arguments::show;
use calls_numerals::{Number, Token};
use std::io::Read;

const NEWLINE: u8 = 10;

// Where reading stands: the next byte of the chunk and how many it holds, the line, and the bytes read before.
#[derive(Clone, Copy, Debug, PartialEq, Eq)]
pub struct Input {
    pub at: usize,
    pub got: usize,
    pub line: u64,
    pub byte: u64,
}

// Before the first byte.
pub fn start() -> Input
    ensures { result ≡ record { at = 0; got = 0; line = 1; byte = 0 } }
{
    Input {
        at: 0,
        got: 0,
        line: 1,
        byte: 0,
    }
}

// A script that is read: a chunk of its bytes, and where reading stands.
#[derive(Drop)]
pub struct Script<'a> {
    pub chunk: &'a mut [u8],
    pub input: Input,
}

impl<'a> Script<'a> {
    // The byte that comes next, if any. Reads on where all bytes of the chunk are used; a read that fails ends the input.
    fn peek(&mut self, rt: &HostRuntime) -> Option<u8> {
        if self.input.got <= self.input.at {
            self.input.got = rt.stdin().read(self.chunk).unwrap_or(0);
            self.input.at = 0;
        }
        if self.input.got == 0 {
            return None;
        }
        let at = self.input.at;
        self.chunk.get(at).copied()
    }

    // Past one byte.
    fn pass(&mut self, b: u8) {
        self.input.at = self.input.at.wrapping_add(1);
        self.input.byte = self.input.byte.wrapping_add(1);
        if b == NEWLINE {
            self.input.line = self.input.line.wrapping_add(1);
        }
    }

    // A proved loop has to end and nothing says that the input does, so the turns are counted.
    fn token(&mut self, rt: &HostRuntime) -> Token {
        let mut token = Token::Blank;
        for _ in 0..u64::MAX {
            let Some(b) = self.peek(rt) else {
                return calls_numerals::close(token);
            };
            token = calls_numerals::push(token, b);
            if calls_numerals::is_done(token) {
                return token;
            }
            self.pass(b);
        }
        Token::End
    }

    // The next number, or none at the end of the input.
    pub fn next(&mut self, rt: &HostRuntime) -> Result<Option<Number>, Fault> {
        match self.token(rt) {
            Token::Whole(n) => Ok(Some(n)),
            Token::End => Ok(None),
            Token::TooLarge => Err(Fault::TooLarge),
            _ => Err(Fault::Strange),
        }
    }

    // What is wrong with a script, and where it was seen. Each piece is written by itself: one that cannot be written is lost alone.
    pub fn bad(&self, rt: &HostRuntime, fault: Fault) {
        show::word(rt, b"bad input: line");
        show::number(rt, self.input.line);
        show::word(rt, b", byte");
        show::number(rt, self.input.byte);
        show::word(rt, b": ");
        let _ = print!(rt; "{fault}");
        show::word(rt, b"\n");
    }
}
