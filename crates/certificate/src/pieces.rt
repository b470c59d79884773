ghost use Rattle.std.specs.Prelude.{◌≡◌, ◌<◌, ◌==◌, nat_lt, IsTrue, length, drop, [], ◌∷◌, IfNone, IfSome};
ghost use Rattle.sdc_base.specs.Answers.{Gives};
ghost use Rattle.certificate.specs.Faults.{fault_itself};
ghost use Rattle.certificate.specs.Pieces as pieces;
ghost use Rattle.certificate.specs.TokenLists.{first_of, end_of, only_of};

use crate::faults::CertWhy;
use plain_text::cut_at;
use std::marker::Model;

/// The pieces of a text between marks, one after another; contracts see the list of those that are left.
#[derive(Drop)]
pub(crate) struct Pieces<'a> {
    mark: u8,
    rest: &'a [u8],
    over: bool,
}

impl<'a> Model for Pieces<'a> {
    ghost use Rattle.std.specs.Prelude.{List, ℕ};
    ghost use Rattle.certificate.specs.Pieces.{pieces_left};

    ghost Value = { List (List ℕ) };

    ghost view = { λ s. pieces_left s.mark s.over s.rest.now };
}

/// The pieces of a text between these marks.
pub(crate) fn pieces_in<'a>(mark: u8, text: &'a [u8]) -> Pieces<'a>
    ensures { result ≡ pieces.pieces mark text.now }
{
    Pieces {
        mark,
        rest: text,
        over: false,
    }
}

impl<'a> Pieces<'a> {
    /// The same pieces once more.
    pub(crate) fn again(&self) -> Pieces<'a>
        ensures { result ≡ self.now }
    {
        Pieces {
            mark: self.mark,
            rest: self.rest,
            over: self.over,
        }
    }

    /// The next piece, and none at the end.
    #[tactic(auto, using(crate::proofs::PieceList::piece_last, crate::proofs::PieceList::piece_first))]
    pub(crate) fn next_piece(&mut self) -> Option<&'a [u8]>
        ensures end { IfNone result (self.old ≡ []) }
        ensures same { IfNone result (self.new ≡ self.old) }
        ensures piece { IfSome result (λ piece. self.old ≡ piece.now ∷ self.new) }
    {
        if self.over {
            return None;
        }
        let text = self.rest;
        if !text.contains(&self.mark) {
            self.over = true;
            return Some(text);
        }
        let (piece, rest) = cut_at(self.mark, text);
        self.rest = rest;
        Some(piece)
    }

    /// Whether more pieces than this are left.
    pub(crate) fn is_past(&self, most: usize) -> bool
        ensures { result ≡ nat_lt most (length self.now) }
    {
        let mut left = self.again();
        let mut room = most;
        'pieces: while let Some(_) = left.next_piece() {
            if room == 0 {
                return true;
            }
            room -= 1;
        }
        false
    }

    /// Whether exactly so many pieces are left.
    pub(crate) fn is_count(&self, count: usize) -> bool
        ensures { result ≡ (length self.now == count) }
    {
        let mut left = self.again();
        let mut room = count;
        'pieces: while let Some(_) = left.next_piece() {
            if room == 0 {
                return false;
            }
            room -= 1;
        }
        room == 0
    }

    /// Takes the next piece, which must be there.
    pub(crate) fn first(&mut self) -> Result<&'a [u8], CertWhy>
        ensures { Gives fault_itself (λ piece. (piece.now, self.new)) result (first_of self.old) }
    {
        let Some(piece) = self.next_piece() else {
            return Err(CertWhy::Shape);
        };
        Ok(piece)
    }

    /// There must be no further piece.
    pub(crate) fn end(&self) -> Result<(), CertWhy>
        ensures { Gives fault_itself (λ fine. fine) result (end_of self.now) }
    {
        let mut left = self.again();
        if left.next_piece().is_some() {
            return Err(CertWhy::Shape);
        }
        Ok(())
    }

    /// Takes the only piece.
    #[tactic(auto, unfolding(crate::specs::TokenLists::only_of))]
    pub(crate) fn only(&mut self) -> Result<&'a [u8], CertWhy>
        ensures { Gives fault_itself (λ piece. piece.now) result (only_of self.old) }
    {
        let piece = self.first()?;
        self.end()?;
        Ok(piece)
    }
}

/// Whether the first byte is this one.
pub(crate) fn begins_with(byte: u8, text: &[u8]) -> bool
    ensures value { result ≡ pieces.begins_with byte text.now }
    ensures not_empty { IsTrue result → 0 < length text.now }
{
    let Some(first) = text.first() else {
        return false;
    };
    *first == byte
}
