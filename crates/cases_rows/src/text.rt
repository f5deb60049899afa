// The numbers and lists of a row.
ghost use Rattle.std.specs.Prelude.{◌≤◌, ◌<◌, IfSome, length};
ghost use Rattle.io.specs.Counts.{IsPrefixLen};
ghost use Rattle.cases_rows.specs.Rest.{IsRest};

// The first place of a byte from an offset on, or the text's end.
pub fn find(text: &[u8], from: usize, byte: u8) -> usize
    requires { from ≤ length text.now }
    ensures { (from ≤ result) × IsPrefixLen result text.now }
{
    let behind = &text[from..];
    match behind.iter().position(|b| *b == byte) {
        Some(i) => from + i,
        None => text.len(),
    }
}

// What a digit stands for.
fn digit(b: u8) -> Option<u32>
    ensures { IfSome result (λ d. d < 10) }
{
    char::from(b).to_digit(10)
}

// A number, and the text behind it.
#[derive(Clone, Copy)]
struct Number<'a> {
    value: u32,
    behind: &'a [u8],
}

// The number whose first digits were read and go on at a text's start; of more than 32 bits the lower 32.
fn read_number(text: &[u8], before: u32) -> Number<'_>
    ensures { IsRest result.behind.now text.now }
{
    let mut value = before;
    for (i, b) in text.iter().enumerate() {
        let Some(d) = digit(*b) else {
            return Number {
                value,
                behind: &text[i..],
            };
        };
        value = value.wrapping_mul(10).wrapping_add(d);
    }
    Number {
        value,
        behind: &text[text.len()..],
    }
}

// A number that comes some times, or the end of a list.
#[derive(Clone, Copy)]
enum Word {
    Times { times: u32, value: u32 },
    End,
}

// `7` is a number, `3*7` is that number three times, a capital letter is its byte's number, and `;` ends a list; another byte says nothing, so it
// comes no times.
#[derive(Clone, Copy)]
struct Token<'a> {
    word: Word,
    behind: &'a [u8],
}

fn read_token(first: u8, behind: &[u8]) -> Token<'_>
    ensures { IsRest result.behind.now behind.now }
{
    if let Some(d) = digit(first) {
        let first = read_number(behind, d);
        return repeated(first.value, first.behind);
    }
    let value = u32::from(first);
    let word = match first {
        b';' => Word::End,
        b'A'..=b'Z' => Word::Times { times: 1, value },
        _ => Word::Times { times: 0, value },
    };
    Token { word, behind }
}

// A number that was read is one, or says how often the number behind its `*` comes.
fn repeated(first: u32, behind: &[u8]) -> Token<'_>
    ensures { IsRest result.behind.now behind.now }
{
    if let Some((b'*', rest)) = behind.split_first() {
        let second = read_number(rest, 0);
        let word = Word::Times {
            times: first,
            value: second.value,
        };
        return Token {
            word,
            behind: second.behind,
        };
    }
    let word = Word::Times {
        times: 1,
        value: first,
    };
    Token { word, behind }
}

// Puts a number into a list some times, as often as there is room; the place behind them.
fn fill(to: &mut [u32], from: usize, times: u32, value: u32) -> usize
    requires { from ≤ length to.old }
    ensures { result ≤ length to.new }
{
    let room = to.len() - from;
    let end = from + room.min(times as usize);
    to[from..end].fill(value);
    end
}

// How many numbers a list has, and the text behind it.
#[derive(Clone, Copy)]
pub struct Given<'a> {
    pub count: usize,
    pub behind: &'a [u8],
}

// The list at a text's start, up to its `;` or the text's end; where there is no text, there is no list, and the kept one stays.
#[tactic(auto, using(crate::proofs::Rests::rest_again))]
pub fn list<'a>(text: &'a [u8], kept: usize, to: &mut [u32]) -> Given<'a>
    ensures { IsRest result.behind.now text.now }
{
    if text.is_empty() {
        return Given {
            count: kept,
            behind: text,
        };
    }
    let mut behind = text;
    let mut count = 0;
    // A token has many bytes, so its own length says where the next one begins.
    while let Some((first, rest)) = behind.split_first() {
        let token = read_token(*first, rest);
        behind = token.behind;
        match token.word {
            Word::End => return Given { count, behind },
            Word::Times { times, value } => count = fill(to, count, times, value),
        }
    }
    Given { count, behind }
}

// A number of places, or all where there are fewer.
pub fn within(n: usize, places: &[u32]) -> usize
    ensures { IsPrefixLen result places.now }
{
    n.min(places.len())
}
