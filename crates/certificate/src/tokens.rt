ghost use Rattle.std.specs.Prelude.{◌≡◌, ◌≤◌, ◌++◌, [], length, map, OnOk, IfOk, FitsSigned, pos};
ghost use Rattle.std.specs.Int.{w128};
ghost use Rattle.std.specs.List.{list_all};
ghost use Rattle.std.specs.Str.{bytes_eq};
ghost use Rattle.sdc_base.specs.Answers.{Gives};
ghost use Rattle.plain_text.specs.Stops.{why_of};
ghost use Rattle.certificate.specs.Faults.{fault_itself};
ghost use Rattle.certificate.specs.Pieces.{pieces, space};
ghost use Rattle.certificate.specs.TokenLists as token_lists;
ghost use Rattle.certificate.specs.TokenLists.{token_numbers, terms_of, with_move, moves_of, move_of, paired_moves_of};

use crate::faults::CertWhy;
use crate::numerals::{are_ascending, integer_of, natural_of};
use crate::pieces::{Pieces, pieces_in};
use crate::version::Version;
use arrayvec::ArrayVec;
use plain_text::{Stop, cut_at};
use sdc_base::{Few, Items, Memory, Place};
use std::alloc::Global;
use worlds::Move;

/// Whether a token is this word.
pub(crate) fn is_word(token: &[u8], word: &[u8]) -> bool
    ensures { result ≡ bytes_eq token.now word.now }
{
    token == word
}

/// The tokens of a line behind the first one, which must be this word.
pub(crate) fn behind_word<'a>(word: &[u8], line: &'a [u8]) -> Result<Pieces<'a>, CertWhy>
    ensures { Gives fault_itself (λ tokens. tokens) result (token_lists.behind_word word.now (pieces space line.now)) }
{
    let mut tokens = pieces_in(b' ', line);
    let Some(first) = tokens.next_piece() else {
        return Err(CertWhy::Shape);
    };
    if !is_word(first, word) {
        return Err(CertWhy::Shape);
    }
    Ok(tokens)
}

/// Each token as a number of a cell, a relation or a place.
pub(crate) fn numbers_in(
    alloc: Global,
    tokens: &mut Pieces<'_>,
) -> Result<Items<u32>, Stop<CertWhy>>
    ensures { Gives why_of (λ numbers. numbers) result (token_numbers tokens.old) }
{
    let mut numbers = Items::empty(alloc);
    'tokens: while let Some(token) = tokens.next_piece() {
        let number = match natural_of(0, token) {
            Ok(number) => number,
            Err(why) => return Err(Stop::Fault(why)),
        };
        numbers.push(number)?;
    }
    Ok(numbers)
}

/// Each of at most eight tokens as a number of a place.
pub(crate) fn places_in(tokens: &mut Pieces<'_>) -> Result<Place, CertWhy>
    requires { length tokens.old ≤ 8 }
    ensures { Gives fault_itself (λ places. places) result (token_numbers tokens.old) }
{
    let mut places: ArrayVec<u32, 8> = ArrayVec::new();
    'tokens: while let Some(token) = tokens.next_piece() {
        let place = natural_of(0, token)?;
        places.push(place);
    }
    Ok(Few::new(places))
}

// Whether a token has a colon.
fn is_pair(token: &[u8]) -> bool
    ensures { result ≡ token_lists.is_pair token.now }
{
    token.contains(&b':')
}

/// Whether all tokens have colons.
pub(crate) fn all_pairs(tokens: &Pieces<'_>) -> bool
    ensures { result ≡ list_all token_lists.is_pair tokens.now }
{
    let mut left = tokens.again();
    'tokens: while let Some(token) = left.next_piece() {
        if !is_pair(token) {
            return false;
        }
    }
    true
}

// A number, a colon and a whole number that isn't 0.
#[tactic(auto, unfolding(crate::specs::TokenLists::term_of))]
fn term_of(token: &[u8]) -> Result<(u32, i128), CertWhy>
    ensures { Gives fault_itself (λ pair. pair) result (token_lists.term_of token.now) }
{
    let (front, back) = cut_at(b':', token);
    let number = natural_of(0, front)?;
    let by = integer_of(back)?;
    if by == 0 {
        return Err(CertWhy::Number);
    }
    Ok((number, by))
}

/// Each token as such a pair.
pub(crate) fn terms_in(
    alloc: Global,
    tokens: &mut Pieces<'_>,
) -> Result<Items<(u32, i128)>, Stop<CertWhy>>
    ensures { Gives why_of (λ pairs. pairs) result (terms_of tokens.old) }
{
    let mut terms = Items::empty(alloc);
    'tokens: while let Some(token) = tokens.next_piece() {
        let term = match term_of(token) {
            Ok(term) => term,
            Err(why) => return Err(Stop::Fault(why)),
        };
        terms.push(term)?;
    }
    Ok(terms)
}

// The first token as a whole number.
#[tactic(auto, unfolding(crate::specs::TokenLists::first_integer))]
fn first_integer(tokens: &mut Pieces<'_>) -> Result<i128, CertWhy>
    ensures exact { Gives fault_itself (λ by. (by, tokens.new)) result (token_lists.first_integer tokens.old) }
    ensures fits { IfOk result (λ by. FitsSigned w128 by) }
{
    let token = tokens.first()?;
    integer_of(token)
}

// A move of a cell behind the others, unless it is 0.
fn add_move(moves: &mut Items<Move>, cell: u32, by: i128) -> Result<(), Memory>
    ensures { OnOk result (moves.new ≡ moves.old ++ with_move cell by []) }
{
    if by == 0 {
        return Ok(());
    }
    moves.push(Move { cell, by })
}

// The moves of these cells, one token for each.
fn moves_in(
    alloc: Global,
    hidden: &[u32],
    tokens: &mut Pieces<'_>,
) -> Result<Items<Move>, Stop<CertWhy>>
    ensures { Gives why_of (λ moves. moves) result (moves_of hidden.now tokens.old) }
{
    let mut moves = Items::empty(alloc);
    'cells: for cell in hidden {
        let by = match first_integer(tokens) {
            Ok(by) => by,
            Err(why) => return Err(Stop::Fault(why)),
        };
        add_move(&mut moves, *cell, by)?;
    }
    Ok(moves)
}

// The moves of cells and numbers.
fn moves_of_terms(alloc: Global, terms: &[(u32, i128)]) -> Result<Items<Move>, Memory>
    ensures { IfOk result (λ moves. moves ≡ map move_of terms.now) }
{
    let mut moves = Items::empty(alloc);
    'terms: for term in terms {
        moves.push(Move {
            cell: term.0,
            by: term.1,
        })?;
    }
    Ok(moves)
}

// Each token as a cell and the number by which it moves, the cells ascending.
#[tactic(auto, unfolding(crate::specs::TokenLists::paired_moves_of))]
fn paired_moves_in(alloc: Global, tokens: &mut Pieces<'_>) -> Result<Items<Move>, Stop<CertWhy>>
    ensures { Gives why_of (λ moves. moves) result (paired_moves_of tokens.old) }
{
    let terms = terms_in(alloc, tokens)?;
    if !are_ascending(terms.as_slice()) {
        return Err(Stop::Fault(CertWhy::Order));
    }
    let moves = moves_of_terms(alloc, terms.as_slice())?;
    Ok(moves)
}

/// Whether the tokens of moves have the form of their version.
pub(crate) fn have_form(version: Version, hidden: &[u32], tokens: &Pieces<'_>) -> bool
    ensures { result ≡ token_lists.have_form version hidden.now tokens.now }
{
    match version {
        Version::One => tokens.is_count(hidden.len()),
        Version::Two => all_pairs(tokens),
    }
}

/// The moves of tokens in their version, with these hidden cells.
pub(crate) fn moves_by(
    alloc: Global,
    version: Version,
    hidden: &[u32],
    tokens: &mut Pieces<'_>,
) -> Result<Items<Move>, Stop<CertWhy>>
    ensures { Gives why_of (λ moves. moves) result (token_lists.moves_by version hidden.now tokens.old) }
{
    match version {
        Version::One => moves_in(alloc, hidden, tokens),
        Version::Two => paired_moves_in(alloc, tokens),
    }
}
