ghost use Rattle.std.specs.Prelude.{◌≡◌, length, [], ◌∷◌, IfNone, IfSome};
ghost use Rattle.job_lang.specs.Pieces as spec;

use plain_text::cut_at;
use std::marker::Model;

/// The pieces of a text between its bars, one after another; contracts see the list of those that are left.
#[derive(Drop)]
pub(crate) struct Pieces<'a> {
    rest: &'a [u8],
    over: bool,
}

impl<'a> Model for Pieces<'a> {
    ghost use Rattle.std.specs.Prelude.{List, ℕ};
    ghost use Rattle.job_lang.specs.Pieces.{pieces_left};

    ghost Value = { List (List ℕ) };

    ghost view = { λ s. pieces_left s.over s.rest.now };
}

/// The pieces of a text.
pub(crate) fn pieces_in<'a>(text: &'a [u8]) -> Pieces<'a>
    ensures { result ≡ spec.pieces text.now }
{
    Pieces {
        rest: text,
        over: false,
    }
}

impl<'a> Pieces<'a> {
    /// The next piece, and none at the end.
    #[tactic(auto, using(crate::proofs::PieceList::piece_last, crate::proofs::PieceList::piece_first))]
    pub(crate) fn next_piece(&mut self) -> Option<&'a [u8]>
        ensures end { IfNone result (self.old ≡ []) }
        ensures same { IfNone result (self.new ≡ self.old) }
        ensures piece { IfSome result (λ piece. self.old ≡ piece.now ∷ self.new) }
    {
        if self.over {
            return None;
        }
        let text = self.rest;
        if !text.contains(&b'|') {
            self.over = true;
            return Some(text);
        }
        let (piece, rest) = cut_at(b'|', text);
        self.rest = rest;
        Some(piece)
    }
}
