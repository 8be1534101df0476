// A number of a script, read one byte after another.
#![tactic(auto)]

ghost use Rattle.std.specs.Prelude.{◌<◌, ◌≤◌, ◌≡◌};
ghost use Rattle.calls_numerals.specs.Numerals.{grown};

// Ten times this, and no more, still fits in 64 bits.
const TENTH: u64 = 1844674407370955161;

// What `digit_of` says of a byte that is no digit.
const NO_DIGIT: u64 = 10;

const TAB: u8 = 9;

const NEWLINE: u8 = 10;

const RETURN: u8 = 13;

const SPACE: u8 = 32;

const HASH: u8 = 35;

const MINUS: u8 = 45;

const ZERO: u8 = 48;

const PAST_NINE: u8 = 58;

// A sign and a size: -0 has a sign too, and is refused for it where none may stand.
#[derive(Clone, Copy, Debug, PartialEq, Eq)]
pub struct Number {
    pub minus: bool,
    pub size: u64,
}

// What reading has come to. After one of the last four it is done.
#[derive(Clone, Copy, Debug, PartialEq, Eq)]
pub enum Token {
    Blank,
    Comment,
    Minus,
    Digits(Number),
    Whole(Number),
    End,
    Strange,
    TooLarge,
}

fn wide(b: u8) -> u64
    ensures { result ≡ b }
{
    b as u64
}

fn digit_of(b: u8) -> u64
    ensures { result ≤ 10 }
{
    if b < ZERO {
        return NO_DIGIT;
    }
    if b < PAST_NINE {
        return wide(b - ZERO);
    }
    NO_DIGIT
}

// A number with one more digit.
fn grow(n: Number, digit: u64) -> Token
    requires { digit < 10 }
    ensures { result ≡ grown n digit }
{
    let minus = n.minus;
    let size = n.size;
    if size > TENTH {
        return Token::TooLarge;
    }
    let tens = size * 10;
    if tens > u64::MAX - digit {
        return Token::TooLarge;
    }
    Token::Digits(Number {
        minus,
        size: tens + digit,
    })
}

// Whether a byte is one of those that part numbers.
fn parts(b: u8) -> bool {
    matches!(b, TAB | NEWLINE | RETURN | SPACE)
}

// A byte before a number.
fn begin(b: u8) -> Token {
    if b == MINUS {
        return Token::Minus;
    }
    if b == HASH {
        return Token::Comment;
    }
    if parts(b) {
        Token::Blank
    } else {
        Token::Strange
    }
}

// A byte after a digit; the mark of a comment ends a number too.
fn finish(n: Number, b: u8) -> Token {
    if b == HASH || parts(b) {
        Token::Whole(n)
    } else {
        Token::Strange
    }
}

fn first_digit(minus: bool, digit: u64) -> Token
    requires { digit < 10 }
{
    grow(Number { minus, size: 0 }, digit)
}

// A digit, read in this state.
fn push_digit(token: Token, digit: u64) -> Token
    requires { digit < 10 }
{
    match token {
        Token::Blank => first_digit(false, digit),
        Token::Minus => first_digit(true, digit),
        Token::Digits(n) => grow(n, digit),
        _ => token,
    }
}

// Any other byte, read in this state.
fn push_other(token: Token, b: u8) -> Token {
    match token {
        Token::Blank => begin(b),
        Token::Comment => {
            if b == NEWLINE {
                return Token::Blank;
            }
            Token::Comment
        }
        Token::Minus => Token::Strange,
        Token::Digits(n) => finish(n, b),
        _ => token,
    }
}

// One more byte.
pub fn push(token: Token, b: u8) -> Token {
    let digit = digit_of(b);
    if digit < NO_DIGIT {
        return push_digit(token, digit);
    }
    push_other(token, b)
}

// The end of the input.
pub fn close(token: Token) -> Token {
    match token {
        Token::Digits(n) => Token::Whole(n),
        Token::Minus => Token::Strange,
        _ => Token::End,
    }
}

pub fn is_done(token: Token) -> bool {
    match token {
        Token::Blank | Token::Comment | Token::Minus | Token::Digits(_) => false,
        Token::Whole(_) | Token::End | Token::Strange | Token::TooLarge => true,
    }
}
