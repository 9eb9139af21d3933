// The line of the program that compares two files: what the comparison comes to in words, or `unread`. Request A8 of document 02.
#![tactic(auto)]

ghost use Rattle.std.specs.Prelude.{◌≡◌, ℕ, ◌+◌, ◌≤◌, List, ◌++◌, length, take};
ghost use Rattle.io.specs.Counts.{IsPrefixLen};
ghost use Rattle.rules.specs.Numbers.{v1};
ghost use Rattle.rules.specs.Calls.{over};
ghost use Rattle.copies.specs.Comparing.{differ};
ghost use Rattle.copies.specs.Calls.{found, refused};
ghost use Rattle.copies.specs.Line.{decimal, words, text_of, line_of};
ghost use Rattle.compare.specs.Told.{compared_told};

use compare::{CompareError, Compared};
use std::marker::Model;

// The most bytes of a file.
const MOST: usize = 32768;

// The numbers of the refusals.
const STORE_DAMAGED: u64 = 1;

const OTHER_LOG: u64 = 26;

// A text of at most 49 bytes, as long as the longest line. A clause sees its bytes. `Display` would not do: no clause of it says that a value prints at all, and
// `line` promises each byte.
#[derive(Drop)]
struct Text {
    bytes: [u8; 49],
    len: usize,
}

impl Model for Text {
    ghost Value = { List ℕ };

    ghost view = { λ t. take t.len t.bytes };

    ghost invariant = { λ t. t.len ≤ 49 };
}

impl Text {
    fn of(part: &[u8]) -> Text
        requires { length part.now ≤ 49 }
        ensures { result ≡ part.now }
    {
        let mut text = Text {
            bytes: [0; 49],
            len: 0,
        };
        text.push(part);
        text
    }

    fn push(&mut self, part: &[u8])
        requires { length self.old + length part.now ≤ 49 }
        ensures { self.new ≡ self.old ++ part.now }
    {
        let end = self.len + part.len();
        self.bytes[self.len..end].copy_from_slice(part);
        self.len = end;
    }

    // In decimal, with no zero before it.
    fn push_number(&mut self, n: u64)
        requires { length self.old + 20 ≤ 49 }
        ensures { self.new ≡ self.old ++ decimal n }
    {
        let mut digits = [0u8; 20];
        let k = io::decimal(n, &mut digits);
        self.push(&digits[..k]);
    }

    // Copies it to the start of out; the rest of out stays. Answers how long it is.
    fn copy_to(&self, out: &mut [u8; 49]) -> usize
        ensures value { result ≡ length self.now }
        ensures out_after { out.new ≡ over self.now out.old }
        ensures prefix_len { IsPrefixLen result out.new }
    {
        let n = self.len;
        out[..n].copy_from_slice(&self.bytes[..n]);
        n
    }
}

// `refused N`.
#[tactic(auto, unfolding(copies::specs::Line::words))]
fn refusal(number: u64) -> Text
    ensures { result ≡ words (refused number) }
{
    let mut text = Text::of(b"refused ");
    text.push_number(number);
    text
}

// `differ N B`.
fn difference(element: u64, byte: u64) -> Text
    ensures { result ≡ words (found (differ element byte)) }
{
    let mut text = Text::of(b"differ ");
    text.push_number(element);
    text.push(b" ");
    text.push_number(byte);
    text
}

// What a comparison comes to, in words.
#[tactic(auto, unfolding(copies::specs::Line::words))]
fn answer_words(answer: Result<Compared, CompareError>) -> Text
    ensures { result ≡ words (compared_told answer) }
{
    match answer {
        Ok(Compared::Equal) => Text::of(b"equal"),
        Ok(Compared::FirstShorter) => Text::of(b"first shorter"),
        Ok(Compared::SecondShorter) => Text::of(b"second shorter"),
        Ok(Compared::Differ { element, byte }) => difference(element.0, byte),
        Err(CompareError::Damaged) => refusal(STORE_DAMAGED),
        Err(CompareError::OtherLog) => refusal(OTHER_LOG),
    }
}

// The line without its line feed.
fn outcome(read: bool, first: &[u8], second: &[u8]) -> Text
    ensures { result ≡ text_of v1 read first.now second.now }
{
    if !read || MOST < first.len() || MOST < second.len() {
        return Text::of(b"unread");
    }
    answer_words(compare::compare(first, second))
}

// The line that the program writes: what the comparison of two files comes to, or `unread` where `read` is false, which says that there are not two names or
// that a read failed, or where a file has more than 32,768 bytes. It goes to the start of out; the rest of out stays. Answers how long it is. In 49 bytes there
// is room for `differ` with any two numbers of 64 bits.
pub fn line(read: bool, first: &[u8], second: &[u8], out: &mut [u8; 49]) -> usize
    ensures value { result ≡ length (line_of v1 read first.now second.now) }
    ensures out_after { out.new ≡ over (line_of v1 read first.now second.now) out.old }
    ensures prefix_len { IsPrefixLen result out.new }
{
    let mut text = outcome(read, first, second);
    text.push(b"\n");
    text.copy_to(out)
}
