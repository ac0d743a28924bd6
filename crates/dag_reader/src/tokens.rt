//! The tokens of a text.

ghost use Rattle.std.specs.Prelude.{◌≡◌, ◌≢◌, ◌<◌, ◌≤◌, ◌-◌, ◌+◌, ◌++◌, List, ℕ, [], ◌∷◌, Some, None, IsTrue, true, false, length, take, drop, IfOk, IfSome, IfNone, option_map};
ghost use Rattle.std.specs.List.{prefix_len, list_all, list_any};
ghost use Rattle.std.specs.Str.{is_utf8};
ghost use Rattle.mixed_graph.specs.Vocabulary.{IsName, AreBytes, IsKeyed, digits_on, is_line_byte};
ghost use Rattle.answer_text.specs.Vocabulary.{is_white, is_edge_byte, is_sign, is_name_byte};
ghost use Rattle.dag_reader.specs.Bytes.{in_class, is_run_byte, is_edge_sign};
ghost use Rattle.dag_reader.specs.Tokens.{Tok, end, edge, name, edge_token, name_token, begins_with_dash, is_droppable, quoted_name_token, sign_token, quoted_text, token_at, value_at, token_of, past_white, first, place_of, due_behind};
ghost use Rattle.dag_reader.specs.Views.{view};
ghost use Rattle.dag_reader.specs.Grammar.{is_end};
ghost use Rattle.dag_reader.specs.Links.{IsLink, sign_of, ends_edge};

use crate::bytes::{begins_name, is_edge_byte, is_name_byte, is_white};
use crate::marks::Arrow;
use crate::words::{Link, Word};
use answer_text::names::begins_with_arrow;
use mixed_graph::{key_of, key_of_digits, with_digit};

/// The classes of bytes of which runs are made.
#[derive(Clone, Copy, Debug, PartialEq, Eq)]
pub enum Class {
    Edge,
    Name,
    Line,
    Run,
}

/// What is due next in a text.
#[derive(Clone, Copy, Debug, PartialEq, Eq)]
pub enum Due {
    Token,
    /// The value behind a `=`.
    Value,
}

/// The tokens of a graph text.
#[derive(Clone, Copy, Debug)]
pub enum Token<'a> {
    OpenBrace,
    CloseBrace,
    OpenBracket,
    CloseBracket,
    Semicolon,
    Equals,
    Comma,
    Edge(Arrow),
    /// Whether it is quoted, and its characters.
    Name(bool, Word<'a>),
    /// The value of an attribute or of a statement that says nothing: its text where it stands without quotes, or nothing.
    Value(&'a [u8]),
    End,
    /// No token.
    Bad,
    /// An edge of another kind of graph, or an arrow of Unicode.
    BadEdge,
}

#[inline(always)]
fn is_in(class: Class, byte: u8) -> bool
    ensures { result ≡ in_class class byte }
{
    match class {
        Class::Edge => is_edge_byte(byte),
        Class::Name => is_name_byte(byte),
        Class::Line => !matches!(byte, b'"' | b'\r' | b'\n'),
        Class::Run => !(is_white(byte) || matches!(byte, b',' | b']' | b'}' | b';' | b'"')),
    }
}

/// How many bytes at the front are in the class.
#[inline(always)]
fn run_len(class: Class, bytes: &[u8]) -> usize
    ensures run { result ≡ prefix_len (in_class class) bytes.now }
    ensures within { result ≤ length bytes.now }
{
    let mut rest = bytes;
    while let [byte, after @ ..] = rest {
        if !is_in(class, *byte) {
            return bytes.len() - rest.len();
        }
        rest = after;
    }
    bytes.len()
}

/// The run of the class at the front, and what follows it.
#[inline(always)]
fn split_run(class: Class, bytes: &[u8]) -> (&[u8], &[u8])
    requires { is_utf8 bytes.now ≡ true }
    ensures run { result.0.now ≡ take (prefix_len (in_class class) bytes.now) bytes.now }
    ensures rest { result.1.now ≡ drop (prefix_len (in_class class) bytes.now) bytes.now }
    ensures passes { list_all (in_class class) result.0.now ≡ true }
    ensures text { is_utf8 result.0.now ≡ true }
    ensures after { is_utf8 result.1.now ≡ true }
    ensures within { length result.1.now ≤ length bytes.now }
{
    bytes.split_at(run_len(class, bytes))
}

/// What follows the white space at the front.
#[inline(always)]
fn past_white(bytes: &[u8]) -> &[u8]
    requires { is_utf8 bytes.now ≡ true }
    ensures rest { result.now ≡ past_white bytes.now }
    ensures text { is_utf8 result.now ≡ true }
    ensures within { length result.now ≤ length bytes.now }
{
    let mut rest = bytes;
    while let [byte, after @ ..] = rest {
        if !is_white(*byte) {
            return rest;
        }
        rest = after;
    }
    rest
}

/// How many bytes of a bare name are at the front, and the digits of its key.
#[inline(always)]
fn name_len(bytes: &[u8]) -> (usize, u64)
    ensures run { result.0 ≡ prefix_len is_name_byte bytes.now }
    ensures within { result.0 ≤ length bytes.now }
    ensures digits { result.0 ≤ 7 → result.1 ≡ digits_on 0 (take result.0 bytes.now) }
    ensures bytes { AreBytes (take result.0 bytes.now) }
{
    let mut digits = 0;
    for i in 0..bytes.len() {
        let byte = bytes[i];
        if !is_name_byte(byte) {
            return (i, digits);
        }
        digits = with_digit(digits, byte);
    }
    (bytes.len(), digits)
}

/// The bare name at the front, what follows it, and the key of the name.
#[inline(always)]
fn split_name(bytes: &[u8]) -> (&[u8], &[u8], u64)
    requires { is_utf8 bytes.now ≡ true }
    ensures run { result.0.now ≡ take (prefix_len is_name_byte bytes.now) bytes.now }
    ensures rest { result.1.now ≡ drop (prefix_len is_name_byte bytes.now) bytes.now }
    ensures passes { list_all is_name_byte result.0.now ≡ true }
    ensures text { is_utf8 result.0.now ≡ true }
    ensures after { is_utf8 result.1.now ≡ true }
    ensures within { length result.1.now ≤ length bytes.now }
    ensures keyed { IsKeyed result.0.now result.2 }
{
    let (count, digits) = name_len(bytes);
    let (run, rest) = bytes.split_at(count);
    (run, rest, key_of_digits(run, digits))
}

fn edge(run: &[u8]) -> Token<'_>
    ensures { view result ≡ edge_token run.now }
{
    match run {
        b"->" => Token::Edge(Arrow::Right),
        b"<-" => Token::Edge(Arrow::Left),
        b"<->" => Token::Edge(Arrow::Both),
        b"--" => Token::BadEdge,
        _ if run.contains(&b'@') => Token::BadEdge,
        _ => Token::Bad,
    }
}

fn bare_name(word: Word<'_>) -> Token<'_>
    ensures { view result ≡ name_token word.entry.bytes.now }
{
    let [byte, ..] = word.bytes else {
        return doubtful_name(word);
    };
    if begins_name(*byte) {
        return Token::Name(false, word);
    }
    doubtful_name(word)
}

/// The same, where the first byte doesn't tell.
fn doubtful_name(word: Word<'_>) -> Token<'_>
    ensures { view result ≡ name_token word.entry.bytes.now }
{
    let run = word.bytes;
    if run.starts_with(b"//") || run.starts_with(b"/*") || run.starts_with(b"#") {
        return Token::Bad;
    }
    if begins_with_arrow(run) {
        return Token::BadEdge;
    }
    Token::Name(false, word)
}

/// Whether an edge or a group of vertices may be written with the byte.
fn is_edge_sign(byte: u8) -> bool
    ensures { result ≡ is_edge_sign byte }
{
    matches!(byte, b'<' | b'>' | b'{' | b'(')
}

/// Whether such a byte is among these.
fn has_edge_sign(run: &[u8]) -> bool
    ensures { result ≡ list_any is_edge_sign run.now }
{
    run.iter().any(|b| is_edge_sign(*b))
}

/// Whether a `-` is at the front that no character of a name follows.
fn begins_with_dash(run: &[u8]) -> bool
    ensures { result ≡ begins_with_dash run.now }
{
    match run {
        [b'-', byte, ..] => !is_name_byte(*byte),
        [b'-'] => true,
        _ => false,
    }
}

/// Whether a value without quotes may be dropped with its statement.
pub fn is_droppable(run: &[u8]) -> bool
    ensures { result ≡ is_droppable run.now }
{
    !(has_edge_sign(run) || begins_with_dash(run))
}

fn quoted_name(text: &[u8]) -> Token<'_>
    requires line { list_all is_line_byte text.now ≡ true }
    requires text { is_utf8 text.now ≡ true }
    ensures { view result ≡ quoted_name_token text.now }
{
    if text.is_empty() {
        Token::Bad
    } else {
        Token::Name(
            true,
            Word {
                bytes: text,
                key: key_of(text),
            },
        )
    }
}

fn sign<'a>(byte: u8) -> Token<'a>
    ensures { view result ≡ sign_token byte }
{
    match byte {
        b'{' => Token::OpenBrace,
        b'}' => Token::CloseBrace,
        b'[' => Token::OpenBracket,
        b']' => Token::CloseBracket,
        b';' => Token::Semicolon,
        b'=' => Token::Equals,
        b',' => Token::Comma,
        _ => Token::Bad,
    }
}

/// What stands before the closing quote, and what follows that.
fn quoted(bytes: &[u8]) -> Option<(&[u8], &[u8])>
    requires { is_utf8 bytes.now ≡ true }
    ensures text { option_map (λ p. (p.0.now, p.1.now)) result ≡ quoted_text bytes.now }
    ensures shorter { IfSome result (λ p. length p.1.now < length bytes.now) }
    ensures line { IfSome result (λ p. list_all is_line_byte p.0.now ≡ true) }
    ensures inside { IfSome result (λ p. is_utf8 p.0.now ≡ true) }
    ensures after { IfSome result (λ p. is_utf8 p.1.now ≡ true) }
{
    let (text, after) = split_run(Class::Line, bytes);
    let [byte, rest @ ..] = after else {
        return None;
    };
    if *byte != b'"' {
        return None;
    }
    Some((text, rest))
}

/// The token that begins with a byte, and what follows it.
fn token_at<'a>(byte: u8, rest: &'a [u8], bytes: &'a [u8]) -> (Token<'a>, &'a [u8])
    requires front { bytes.now ≡ byte ∷ rest.now }
    requires text { is_utf8 bytes.now ≡ true }
    requires rest { byte < 128 → is_utf8 rest.now ≡ true }
    ensures token { (view result.0, result.1.now) ≡ token_at byte rest.now }
    ensures shorter { length result.1.now ≤ length rest.now }
    ensures after { is_utf8 result.1.now ≡ true }
{
    if byte == b'"' {
        let Some((text, after)) = quoted(rest) else {
            return (Token::Bad, rest);
        };
        return (quoted_name(text), after);
    }
    if is_in(Class::Edge, byte) {
        let (run, after) = split_run(Class::Edge, bytes);
        return (edge(run), after);
    }
    if is_in(Class::Name, byte) {
        let (run, after, key) = split_name(bytes);
        return (bare_name(Word { bytes: run, key }), after);
    }
    (sign(byte), rest)
}

/// The same where a value is due.
fn value_at<'a>(byte: u8, rest: &'a [u8], bytes: &'a [u8]) -> (Token<'a>, &'a [u8])
    requires front { bytes.now ≡ byte ∷ rest.now }
    requires text { is_utf8 bytes.now ≡ true }
    requires rest { byte < 128 → is_utf8 rest.now ≡ true }
    ensures token { (view result.0, result.1.now) ≡ value_at byte rest.now }
    ensures shorter { length result.1.now ≤ length rest.now }
    ensures after { is_utf8 result.1.now ≡ true }
{
    if byte == b'"' {
        let Some((_, after)) = quoted(rest) else {
            return (Token::Bad, rest);
        };
        return (Token::Value(b"".as_slice()), after);
    }
    if is_in(Class::Run, byte) {
        let (run, after) = split_run(Class::Run, bytes);
        return (Token::Value(run), after);
    }
    (sign(byte), rest)
}

/// The token at the front, and what follows it.
fn token_of(due: Due, bytes: &[u8]) -> (Token<'_>, &[u8])
    requires { is_utf8 bytes.now ≡ true }
    ensures token { (view result.0, result.1.now) ≡ token_of due bytes.now }
    ensures shorter { view result.0 ≢ end → length result.1.now < length bytes.now }
    ensures kept { length result.1.now ≤ length bytes.now }
    ensures after { is_utf8 result.1.now ≡ true }
{
    let [byte, rest @ ..] = bytes else {
        return (Token::End, bytes);
    };
    match due {
        Due::Token => token_at(*byte, rest, bytes),
        Due::Value => value_at(*byte, rest, bytes),
    }
}

/// What is due behind a token: a value behind a `=`.
#[inline(always)]
fn due_behind(token: Token<'_>) -> Due
    ensures { result ≡ due_behind (view token.entry) }
{
    match token {
        Token::Equals => Due::Value,
        _ => Due::Token,
    }
}

/// The bare name at the front, behind white space, and what follows it; none whose first byte doesn't tell that it is one.
#[inline(always)]
fn name_first(bytes: &[u8]) -> Option<(Word<'_>, &[u8])>
    requires { is_utf8 bytes.now ≡ true }
    ensures token { IfSome result (λ p. first Due.Token bytes.now ≡ (name false p.0.bytes.now, p.1.now)) }
    ensures shorter { IfSome result (λ p. length p.1.now < length bytes.now) }
    ensures after { IfSome result (λ p. is_utf8 p.1.now ≡ true) }
{
    let (run, rest, key) = split_name(past_white(bytes));
    let [byte, ..] = run else {
        return None;
    };
    if !begins_name(*byte) {
        return None;
    }
    Some((Word { bytes: run, key }, rest))
}

/// The edge at the front, behind white space, and what follows it.
#[inline(always)]
fn edge_first(bytes: &[u8]) -> Option<(Arrow, &[u8])>
    requires { is_utf8 bytes.now ≡ true }
    ensures token { IfSome result (λ p. first Due.Token bytes.now ≡ (edge p.0, p.1.now)) }
    ensures kept { IfSome result (λ p. length p.1.now ≤ length bytes.now) }
    ensures after { IfSome result (λ p. is_utf8 p.1.now ≡ true) }
{
    let (arrow, rest) = arrow_at(past_white(bytes))?;
    if ends_edge(rest) {
        return Some((arrow, rest));
    }
    None
}

/// The arrow at the front, which may go on, and what follows it.
#[inline(always)]
fn arrow_at(bytes: &[u8]) -> Option<(Arrow, &[u8])>
    ensures arrow { IfSome result (λ p. bytes.now ≡ sign_of p.0 ++ p.1.now) }
    ensures kept { IfSome result (λ p. length p.1.now ≤ length bytes.now) }
{
    match bytes {
        [b'-', b'>', rest @ ..] => Some((Arrow::Right, rest)),
        [b'<', b'-', b'>', rest @ ..] => Some((Arrow::Both, rest)),
        [b'<', b'-', rest @ ..] => Some((Arrow::Left, rest)),
        _ => None,
    }
}

/// Whether no byte of an edge is at the front.
#[inline(always)]
fn ends_edge(bytes: &[u8]) -> bool
    ensures { result ≡ ends_edge bytes.now }
{
    match bytes {
        [byte, ..] => !is_edge_byte(*byte),
        [] => true,
    }
}

/// Cuts a text into tokens.
#[derive(Clone, Copy, Debug)]
pub struct Lexer<'a> {
    size: usize,
    rest: &'a [u8],
    due: Due,
    ghost within: { length rest.now ≤ size },
    ghost text: { is_utf8 rest.now ≡ true },
}

impl<'a> Lexer<'a> {
    /// Before the first token.
    pub fn new(text: &'a [u8]) -> Lexer<'a>
        requires { is_utf8 text.now ≡ true }
        ensures { (result.size ≡ length text.now) × (result.rest.now ≡ text.now) × (result.due ≡ Due.Token) }
    {
        Lexer {
            size: text.len(),
            rest: text,
            due: Due::Token,
        }
    }

    /// The place of the next token, and the token.
    #[tactic(auto, unfolding(crate::specs::Tokens::first, crate::specs::Tokens::place_of))]
    pub fn next(&mut self) -> (usize, Token<'a>)
        ensures token { (view result.1, self.new.rest.now) ≡ first self.old.due self.old.rest.now }
        ensures place { result.0 ≡ place_of self.old.size self.old.rest.now }
        ensures size { self.new.size ≡ self.old.size }
        ensures due { self.new.due ≡ due_behind (view result.1) }
        ensures shorter { view result.1 ≢ end → length self.new.rest.now < length self.old.rest.now }
    {
        let bytes = past_white(self.rest);
        let at = self.size - bytes.len();
        let (token, rest) = token_of(self.due, bytes);
        self.rest = rest;
        self.due = due_behind(token);
        (at, token)
    }

    /// The edge between two bare names that comes next. Where there is none, nothing is taken.
    #[inline(always)]
    pub fn link(&mut self) -> Option<Link<'a>>
        ensures link { IfSome result (λ l. IsLink self.old.rest.now l.left.bytes.now l.arrow l.right.bytes.now self.new.rest.now) }
        ensures none { IfNone result (self.new.rest.now ≡ self.old.rest.now) }
        ensures size { self.new.size ≡ self.old.size }
        ensures due { self.new.due ≡ self.old.due }
        ensures not_due { IfSome result (λ _. self.old.due ≡ Due.Token) }
        ensures shorter { IfSome result (λ _. length self.new.rest.now < length self.old.rest.now) }
    {
        let Due::Token = self.due else {
            return None;
        };
        let (left, behind_left) = name_first(self.rest)?;
        let (arrow, behind_edge) = edge_first(behind_left)?;
        let (right, rest) = name_first(behind_edge)?;
        self.rest = rest;
        Some(Link { left, arrow, right })
    }
}

/// Whether nothing is left.
pub fn is_end(token: Token<'_>) -> bool
    ensures { result ≡ is_end (view token.entry) }
{
    matches!(token, Token::End)
}
