//! What a token is to the grammar.
ghost use Rattle.std.specs.Prelude.{◌≡◌, ◌≢◌, true, false};
ghost use Rattle.std.specs.Str.{bytes_eq};
ghost use Rattle.wf_cursor.specs.Pieces as spec;

use wf_lex::TokenKind;

/// What a token is to the grammar: a reserved word, a sign, a name, an Int or a Text.
#[derive(Clone, Copy, PartialEq, Eq)]
pub enum Piece {
    Chart,
    Unit,
    Event,
    Var,
    Activity,
    At,
    Gives,
    Basic,
    Or,
    And,
    From,
    To,
    On,
    If,
    Do,
    Raise,
    Start,
    True,
    False,
    Not,
    In,
    Count,
    Done,
    /// The word `bool`.
    BoolSort,
    /// The word `int`.
    IntSort,
    /// The word `text`.
    TextSort,
    Semicolon,
    Colon,
    Comma,
    OpenBrace,
    CloseBrace,
    OpenParen,
    CloseParen,
    /// The sign `:=`.
    Assign,
    Equal,
    NotEqual,
    Less,
    /// The sign `<=`.
    AtMost,
    Greater,
    /// The sign `>=`.
    AtLeast,
    Plus,
    Minus,
    Star,
    Slash,
    Percent,
    /// A sign that the grammar hasn't. No token is one.
    OtherSign,
    /// A word that isn't reserved.
    Name,
    Int,
    Text,
}

/// Whether the two are one piece.
pub fn same_piece(piece: Piece, other: Piece) -> bool
    ensures value { result ≡ spec.same_piece piece other }
    ensures same { result ≡ true → piece ≡ other }
    ensures other { result ≡ false → piece ≢ other }
{
    piece == other
}

fn is_same(bytes: &[u8], other: &[u8]) -> bool
    ensures { result ≡ bytes_eq bytes.now other.now }
{
    bytes == other
}

#[tactic(auto, unfolding(crate::specs::Pieces::sort_word))]
fn sort_word(word: &[u8]) -> Piece
    ensures { result ≡ spec.sort_word word.now }
{
    if is_same(word, b"bool") {
        Piece::BoolSort
    } else if is_same(word, b"int") {
        Piece::IntSort
    } else if is_same(word, b"text") {
        Piece::TextSort
    } else {
        Piece::Name
    }
}

#[tactic(auto, unfolding(crate::specs::Pieces::value_word))]
fn value_word(word: &[u8]) -> Piece
    ensures { result ≡ spec.value_word word.now }
{
    if is_same(word, b"true") {
        Piece::True
    } else if is_same(word, b"false") {
        Piece::False
    } else if is_same(word, b"not") {
        Piece::Not
    } else if is_same(word, b"in") {
        Piece::In
    } else if is_same(word, b"count") {
        Piece::Count
    } else if is_same(word, b"done") {
        Piece::Done
    } else {
        sort_word(word)
    }
}

#[tactic(auto, unfolding(crate::specs::Pieces::moving_word))]
fn moving_word(word: &[u8]) -> Piece
    ensures { result ≡ spec.moving_word word.now }
{
    if is_same(word, b"from") {
        Piece::From
    } else if is_same(word, b"to") {
        Piece::To
    } else if is_same(word, b"on") {
        Piece::On
    } else if is_same(word, b"if") {
        Piece::If
    } else if is_same(word, b"do") {
        Piece::Do
    } else if is_same(word, b"raise") {
        Piece::Raise
    } else if is_same(word, b"start") {
        Piece::Start
    } else {
        value_word(word)
    }
}

#[tactic(auto, unfolding(crate::specs::Pieces::state_word))]
fn state_word(word: &[u8]) -> Piece
    ensures { result ≡ spec.state_word word.now }
{
    if is_same(word, b"basic") {
        Piece::Basic
    } else if is_same(word, b"or") {
        Piece::Or
    } else if is_same(word, b"and") {
        Piece::And
    } else {
        moving_word(word)
    }
}

#[tactic(auto, unfolding(crate::specs::Pieces::word_piece))]
fn word_piece(word: &[u8]) -> Piece
    ensures { result ≡ spec.word_piece word.now }
{
    if is_same(word, b"chart") {
        Piece::Chart
    } else if is_same(word, b"unit") {
        Piece::Unit
    } else if is_same(word, b"event") {
        Piece::Event
    } else if is_same(word, b"var") {
        Piece::Var
    } else if is_same(word, b"activity") {
        Piece::Activity
    } else if is_same(word, b"at") {
        Piece::At
    } else if is_same(word, b"gives") {
        Piece::Gives
    } else {
        state_word(word)
    }
}

#[tactic(auto, unfolding(crate::specs::Pieces::reckoning_sign))]
fn reckoning_sign(sign: &[u8]) -> Piece
    ensures { result ≡ spec.reckoning_sign sign.now }
{
    if is_same(sign, b"+") {
        Piece::Plus
    } else if is_same(sign, b"-") {
        Piece::Minus
    } else if is_same(sign, b"*") {
        Piece::Star
    } else if is_same(sign, b"/") {
        Piece::Slash
    } else if is_same(sign, b"%") {
        Piece::Percent
    } else {
        Piece::OtherSign
    }
}

#[tactic(auto, unfolding(crate::specs::Pieces::comparing_sign))]
fn comparing_sign(sign: &[u8]) -> Piece
    ensures { result ≡ spec.comparing_sign sign.now }
{
    if is_same(sign, b"=") {
        Piece::Equal
    } else if is_same(sign, b"!=") {
        Piece::NotEqual
    } else if is_same(sign, b"<") {
        Piece::Less
    } else if is_same(sign, b"<=") {
        Piece::AtMost
    } else if is_same(sign, b">") {
        Piece::Greater
    } else if is_same(sign, b">=") {
        Piece::AtLeast
    } else {
        reckoning_sign(sign)
    }
}

#[tactic(auto, unfolding(crate::specs::Pieces::sign_piece))]
fn sign_piece(sign: &[u8]) -> Piece
    ensures { result ≡ spec.sign_piece sign.now }
{
    if is_same(sign, b";") {
        Piece::Semicolon
    } else if is_same(sign, b":") {
        Piece::Colon
    } else if is_same(sign, b",") {
        Piece::Comma
    } else if is_same(sign, b"{") {
        Piece::OpenBrace
    } else if is_same(sign, b"}") {
        Piece::CloseBrace
    } else if is_same(sign, b"(") {
        Piece::OpenParen
    } else if is_same(sign, b")") {
        Piece::CloseParen
    } else if is_same(sign, b":=") {
        Piece::Assign
    } else {
        comparing_sign(sign)
    }
}

/// What a token of this kind and with these bytes is.
#[tactic(auto, unfolding(crate::specs::Pieces::piece_of))]
pub fn piece_of(kind: TokenKind, bytes: &[u8]) -> Piece
    ensures { result ≡ spec.piece_of kind bytes.now }
{
    match kind {
        TokenKind::Word => word_piece(bytes),
        TokenKind::Int => Piece::Int,
        TokenKind::Text => Piece::Text,
        TokenKind::Sign => sign_piece(bytes),
    }
}
