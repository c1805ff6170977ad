ghost use Rattle.std.specs.Prelude.{◌≡◌};
ghost use Rattle.wkt_terms.specs.Tokens.{is_modifier, word_of, token_at, behind_token};
ghost use Rattle.wkt_text.specs.Meanings.{word_meant, token_meant};

use text_fields::{Class, Number, is_letter, is_number_byte, next_number, spells, split_run};

/// A word of well-known text.
#[derive(Clone, Copy)]
pub enum Word {
    Point,
    LineString,
    MultiLineString,
    Polygon,
    MultiPolygon,
    /// `Z`, `M`, `ZM` or `EMPTY`.
    Modifier,
    /// Any other.
    Strange,
}

/// What a token means.
#[derive(Clone, Copy)]
pub enum Token {
    Open,
    Close,
    Comma,
    Named(Word),
    Numeral(Number),
    /// Any other byte.
    Other,
    /// The end of the text.
    End,
}

fn is_modifier(text: &[u8]) -> bool
    ensures { result ≡ is_modifier text.now }
{
    spells(text, b"z") || spells(text, b"m") || spells(text, b"zm") || spells(text, b"empty")
}

fn word_of(text: &[u8]) -> Word
    ensures { word_meant result ≡ word_of text.now }
{
    if spells(text, b"point") {
        Word::Point
    } else if spells(text, b"linestring") {
        Word::LineString
    } else if spells(text, b"multilinestring") {
        Word::MultiLineString
    } else if spells(text, b"polygon") {
        Word::Polygon
    } else if spells(text, b"multipolygon") {
        Word::MultiPolygon
    } else if is_modifier(text) {
        Word::Modifier
    } else {
        Word::Strange
    }
}

/// The token at the front of a text that does not begin with a blank, and what follows it.
pub fn next_token(text: &[u8]) -> (Token, &[u8])
    ensures token { token_meant result.0 ≡ token_at text.now }
    ensures rest { result.1.now ≡ behind_token text.now }
{
    let [first, rest @ ..] = text else {
        return (Token::End, text);
    };
    if is_letter(*first) {
        let (word, rest) = split_run(Class::Letter, text);
        return (Token::Named(word_of(word)), rest);
    }
    if is_number_byte(*first) {
        let (number, rest) = next_number(text);
        return (Token::Numeral(number), rest);
    }
    match *first {
        b'(' => (Token::Open, rest),
        b')' => (Token::Close, rest),
        b',' => (Token::Comma, rest),
        _ => (Token::Other, rest),
    }
}
