//! The longest token that begins a text, and the white space and comments before one.

ghost use Rattle.std.specs.Prelude.{◌≡◌, ◌≢◌, ◌<◌, ◌≤◌, ◌+◌, ◌∷◌, [], true, length, slice_index, Some, IfSome};
ghost use Rattle.std.specs.Char.{is_ascii_alphabetic, is_ascii_digit};
ghost use Rattle.std.specs.List.{list_any, prefix_len};
ghost use Rattle.std.specs.Str.{bytes_eq};
ghost use Rattle.pvs_lexer.specs.Tokens as spec;
ghost use Rattle.pvs_lexer.specs.code.Scan as scan;

use crate::token::TokenKind;

#[derive(Clone, Copy, Debug)]
enum Class {
    /// What a word goes on with.
    Word,
    Digit,
    /// What a comment goes on with.
    Line,
    /// What stands between quotes.
    Inside,
}

const ONE_BYTE: &[u8] = b"()[]{},;:.|=&+-`<>*/^";

const TWO_BYTES: [[u8; 2]; 16] = [
    *b"->", *b"=>", *b"/=", *b"/\\", *b"\\/", *b"<=", *b">=", *b"(#", *b"#)", *b"[#", *b"#]",
    *b"(:", *b":)", *b"{{", *b"::", *b":=",
];

fn is_in(class: Class, b: u8) -> bool
    ensures { result ≡ scan.is_in class b }
{
    match class {
        Class::Word => b.is_ascii_alphanumeric() || b == b'_' || b == b'?',
        Class::Digit => b.is_ascii_digit(),
        Class::Line => b != b'\n',
        Class::Inside => b != b'"',
    }
}

/// How many bytes at the beginning are of a class.
fn run(class: Class, text: &[u8]) -> usize
    ensures value { result ≡ prefix_len (scan.is_in class) text.now }
    ensures within { result ≤ length text.now }
{
    let mut end = 0;
    while end < text.len() && is_in(class, text[end]) {
        end += 1;
    }
    end
}

fn byte(text: &[u8], at: usize) -> u8
    ensures { result ≡ slice_index text.now at }
{
    if at < text.len() { text[at] } else { 0 }
}

#[tactic(auto, unfolding(crate::specs::code::Scan::begins_variable))]
fn begins_variable(first: u8, rest: &[u8]) -> bool
    ensures { result ≡ scan.begins_variable first rest.now }
{
    let (mark, digit) = (byte(rest, 0), byte(rest, 1));
    (first == b'v' || first == b's') && mark == b'!' && b'1' <= digit && digit <= b'9'
}

#[tactic(auto, using(crate::proofs::LongestLaws::variable_longest, crate::proofs::LongestLaws::variable_room))]
fn variable(first: u8, rest: &[u8]) -> (TokenKind, usize)
    requires { scan.begins_variable first rest.now ≡ true }
    ensures { spec.longest (first ∷ rest.now) ≡ Some result }
{
    (TokenKind::Bang, 3 + run(Class::Digit, &rest[2..]).min(8))
}

#[tactic(auto, using(crate::proofs::LongestLaws::word_longest))]
fn word(first: u8, rest: &[u8]) -> (TokenKind, usize)
    requires { is_ascii_alphabetic first ≡ true }
    ensures { spec.longest (first ∷ rest.now) ≡ Some result }
{
    if begins_variable(first, rest) {
        variable(first, rest)
    } else {
        (TokenKind::Word, 1 + run(Class::Word, rest))
    }
}

#[tactic(auto, using(crate::proofs::LongestLaws::number_longest))]
fn number(first: u8, rest: &[u8]) -> (TokenKind, usize)
    requires { is_ascii_digit first ≡ true }
    ensures { spec.longest (first ∷ rest.now) ≡ Some result }
{
    (TokenKind::Number, 1 + run(Class::Digit, rest))
}

#[tactic(auto, using(crate::proofs::LongestLaws::quoted_longest, crate::proofs::LongestLaws::quoted_none))]
fn quoted(rest: &[u8]) -> Option<(TokenKind, usize)>
    ensures { spec.longest (34 ∷ rest.now) ≡ result }
{
    let inside = run(Class::Inside, rest);
    if inside < rest.len() {
        Some((TokenKind::Quoted, 2 + inside))
    } else {
        None
    }
}

fn is_single(b: u8) -> bool
    ensures { result ≡ spec.is_symbol (b ∷ []) }
{
    ONE_BYTE.contains(&b)
}

fn is_pair(a: u8, b: u8) -> bool
    ensures { result ≡ spec.is_symbol (a ∷ b ∷ []) }
{
    TWO_BYTES.contains(&[a, b])
}

/// How many bytes the symbol has that begins a text, or 0 where none does.
#[tactic(auto, unfolding(crate::specs::code::Scan::symbol_size))]
fn symbol_size(first: u8, rest: &[u8]) -> usize
    ensures { result ≡ scan.symbol_size first rest.now }
{
    let (second, third) = (byte(rest, 0), byte(rest, 1));
    if first == b'<' && second == b'=' && third == b'>' {
        3
    } else if is_pair(first, second) {
        2
    } else if is_single(first) {
        1
    } else {
        0
    }
}

#[tactic(auto, using(crate::proofs::LongestLaws::symbol_longest, crate::proofs::LongestLaws::symbol_none))]
fn symbol(first: u8, rest: &[u8]) -> Option<(TokenKind, usize)>
    requires { scan.is_other first ≡ true }
    ensures { spec.longest (first ∷ rest.now) ≡ result }
{
    match symbol_size(first, rest) {
        0 => None,
        size => Some((TokenKind::Symbol, size)),
    }
}

/// The longest token that begins a text, and how many bytes it has.
#[tactic(auto, using(crate::proofs::LongestLaws::longest_some, crate::proofs::LongestLaws::longest_within_text))]
pub fn longest(first: u8, rest: &[u8]) -> Option<(TokenKind, usize)>
    ensures value { spec.longest (first ∷ rest.now) ≡ result }
    ensures within { IfSome result (λ found. (1 ≤ found.1) × (found.1 ≤ 1 + length rest.now)) }
{
    if first.is_ascii_alphabetic() {
        Some(word(first, rest))
    } else if first.is_ascii_digit() {
        Some(number(first, rest))
    } else if first == b'"' {
        quoted(rest)
    } else {
        symbol(first, rest)
    }
}

/// How many bytes a white space or a comment has that begins a text, or 0 where none does.
pub fn blank(first: u8, rest: &[u8]) -> usize
    ensures value { result ≡ scan.blank first rest.now }
    ensures within { result ≤ 1 + length rest.now }
{
    if is_space(first) {
        1
    } else if first == b'%' {
        1 + run(Class::Line, rest)
    } else {
        0
    }
}

fn is_space(b: u8) -> bool
    ensures { result ≡ spec.is_space b }
{
    b == b' ' || b == b'\t' || b == b'\r' || b == b'\n' || b == 12
}
