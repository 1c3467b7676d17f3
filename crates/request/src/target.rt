// The target of a request: its path is judged as tokens (a byte, or a code of `%` and two digits) and in parts, its query byte by byte; and a
// good target is brought into canonical form in place, which never makes it longer.
ghost use Rattle.std.specs.Prelude.{◌≡◌, ◌<◌, ◌≤◌, length, drop, IfSome, IfErr};
ghost use Rattle.std.specs.Iterator.{YieldsFirst, item_count};
ghost use Rattle.text.specs.Bytes.{Wrote, placed};
ghost use Rattle.request.specs.Targets.{tokens, first_token, width, good_token, bad_token, ends_in_dot, bad_part, bad_part_of, bad_query, check_target, capital, spell, undone_path, undone};

use message::fault::{Fault, Flaw};
use text::kind::kind_of;
use text::mark::pieces;
use text::name::{eq, eq_ignore_case};
use text::numeral::hex_pair;
use text::output::put;
use text::span::{Class, span, span_before};

// What a path is made of.
#[derive(Clone, Copy)]
pub enum Token {
    // a byte that stands for itself
    Byte(u8),
    // the two bytes after a `%`
    Code(u8, u8),
}

// A hexadecimal digit in capitals.
fn capital(b: u8) -> u8
    ensures { result ≡ capital b }
{
    match b {
        b'a'..=b'f' => b - 32,
        _ => b,
    }
}

impl Token {
    // The token that a path begins with; none where the path is empty.
    fn first(path: &[u8]) -> Option<Token>
        ensures is { result ≡ first_token path.now }
        ensures within { IfSome result (λ t. width t ≤ length path.now) }
    {
        match path {
            [] => None,
            [b'%', a, b, ..] => Some(Token::Code(*a, *b)),
            [b, ..] => Some(Token::Byte(*b)),
        }
    }

    // How many bytes it has as sent.
    fn width(self) -> usize
        ensures { result ≡ width self }
    {
        match self {
            Token::Byte(_) => 1,
            Token::Code(_, _) => 3,
        }
    }

    // Whether a path may have it.
    fn is_good(self) -> bool
        ensures { result ≡ good_token self }
    {
        match self {
            Token::Byte(b) => kind_of(b).is_plain() || b == b'/',
            Token::Code(a, b) => match hex_pair(a, b) {
                Some(v) => kind_of(v).is_plain() || v >= 128,
                None => false,
            },
        }
    }

    // Writes it in canonical form to the front of `out`, as far as there is room: a code as the byte that it stands for where that is plain, else
    // with its digits in capitals.
    fn put(self, out: &mut [u8]) -> usize
        ensures { Wrote (spell self) out.old out.new result }
    {
        match self {
            Token::Byte(b) => put(out, &[b]),
            Token::Code(a, b) => match hex_pair(a, b) {
                None => put(out, &[b'%', a, b]),
                Some(v) if kind_of(v).is_plain() => put(out, &[v]),
                Some(_) => put(out, &[b'%', capital(a), capital(b)]),
            },
        }
    }
}

// The tokens of a path, from the left.
#[derive(Drop)]
struct Tokens<'a>(&'a [u8]);

impl Iterator for Tokens<'_> {
    type Item = Token;

    ghost next_gives = { YieldsFirst (λ s. tokens s.0.now) };

    ghost remaining = { item_count (λ s. tokens s.0.now) };

    fn next(&mut self) -> Option<Token> {
        let token = Token::first(self.0)?;
        self.0 = &self.0[token.width()..];
        Some(token)
    }
}

// Where the first token stands that a path may not have.
fn bad_token(path: &[u8]) -> Option<usize>
    ensures is { result ≡ bad_token 0 (tokens path.now) }
    ensures within { IfSome result (λ n. n ≤ length path.now) }
{
    let mut at: usize = 0;
    for token in Tokens(path) {
        if !token.is_good() {
            return Some(at);
        }
        at += token.width();
    }
    None
}

// Whether a part ends with a dot, or with the code for one.
fn ends_in_dot(part: &[u8]) -> bool
    ensures { result ≡ ends_in_dot part.now }
{
    let n = part.len();
    eq(&part[n.saturating_sub(1)..], b".") || eq_ignore_case(&part[n.saturating_sub(3)..], b"%2e")
}

// Whether a path may not have this part: an empty one, or one that ends with a dot.
fn is_bad_part(part: &[u8]) -> bool
    ensures { result ≡ bad_part part.now }
{
    part.is_empty() || ends_in_dot(part)
}

// Where the first bad part ends.
fn bad_part(path: &[u8]) -> Option<usize>
    ensures is { result ≡ bad_part_of path.now }
    ensures within { IfSome result (λ n. n ≤ length path.now) }
{
    if path.len() <= 1 {
        return None;
    }
    let mut at: usize = 1;
    for part in pieces(&path[1..], b'/') {
        if is_bad_part(part) {
            return Some(at + part.len());
        }
        at += part.len() + 1;
    }
    None
}

// Where the first byte stands that a query may not have.
fn bad_query(query: &[u8]) -> Option<usize>
    ensures is { result ≡ bad_query query.now }
    ensures within { IfSome result (λ n. n < length query.now) }
{
    let n = span(query, Class::Query);
    if n < query.len() { Some(n) } else { None }
}

// What is wrong with a target, with its place in it.
pub fn check_target(target: &[u8]) -> Result<(), Flaw>
    ensures is { result ≡ check_target target.now }
    ensures within { IfErr result (λ w. w.place ≤ length target.now) }
{
    let mark = span_before(target, b'?');
    let path = &target[0..mark];
    if let Some(place) = bad_token(path) {
        return Err(Fault::PathByte.at(place));
    }
    if let Some(place) = bad_part(path) {
        return Err(Fault::PathPart.at(place));
    }
    if mark >= target.len() {
        return Ok(());
    }
    match bad_query(&target[mark + 1..]) {
        Some(n) => Err(Fault::QueryByte.at(mark + 1 + n)),
        None => Ok(()),
    }
}

// Brings a path into canonical form, in place, and says how many bytes it then has. A token is never written longer than it was.
fn undo_path(path: &mut [u8]) -> usize
    ensures is { Wrote (undone_path path.old) path.old path.new result }
    ensures within { length (undone_path path.old) ≤ length path.old }
{
    let mut at: usize = 0;
    let mut i: usize = 0;
    // by places, since the front of the path is written over while the rest of it is read
    while let Some(token) = Token::first(&path[i..]) {
        i += token.width();
        at += token.put(&mut path[at..]);
    }
    at
}

// Moves the bytes from `from` on to the front, and says how many they are; what lies behind them there stays as it was.
fn move_down(s: &mut [u8], from: usize) -> usize
    requires { from ≤ length s.old }
    ensures { Wrote (drop from s.old) s.old s.new result }
{
    s.copy_within(from.., 0);
    s.len() - from
}

// Brings a target into canonical form, in place, and says how many bytes it then has; what lies behind them stays as it was.
pub fn undo(target: &mut [u8]) -> usize
    ensures value { result ≡ length (undone target.old) }
    ensures after { target.new ≡ placed (undone target.old) target.old }
    ensures within { length (undone target.old) ≤ length target.old }
{
    let mark = span_before(target, b'?');
    let n = undo_path(&mut target[0..mark]);
    if mark + 1 >= target.len() {
        return n;
    }
    n + move_down(&mut target[n..], mark - n)
}
