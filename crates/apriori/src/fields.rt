ghost use Rattle.std.specs.Prelude.{◌≡◌, ◌==◌, ◌<◌, ◌^◌, length, drop, [], ◌∷◌, IfNone, IfSome};
ghost use Rattle.apriori.specs.Fields as spec;

use plain_text::{cut_at, trim};
use std::marker::Model;

/// The fields of a line, one after another; contracts see the list of those that are left.
#[derive(Drop)]
pub(crate) struct Fields<'a> {
    separator: u8,
    rest: &'a [u8],
    over: bool,
}

impl<'a> Model for Fields<'a> {
    ghost use Rattle.std.specs.Prelude.{List, ℕ, length, ◌<◌, ◌^◌};
    ghost use Rattle.apriori.specs.Fields.{fields_left};

    ghost Value = { List (List ℕ) };

    ghost view = { λ s. fields_left s.over s.separator s.rest.now };

    ghost invariant = { λ s. length s.rest.now < 2 ^ 32 };
}

/// The fields of a text, between the bytes that separate them and without blanks at their ends.
pub(crate) fn fields_in<'a>(separator: u8, text: &'a [u8]) -> Fields<'a>
    requires { length text.now < 2 ^ 32 }
    ensures { result ≡ spec.fields separator text.now }
{
    Fields {
        separator,
        rest: text,
        over: false,
    }
}

impl<'a> Fields<'a> {
    /// The next field, and none at the end.
    #[tactic(auto, using(crate::proofs::FieldList::field_last, crate::proofs::FieldList::field_first))]
    pub(crate) fn next_field(&mut self) -> Option<&'a [u8]>
        ensures end { IfNone result (self.old ≡ []) }
        ensures same { IfNone result (self.new ≡ self.old) }
        ensures field { IfSome result (λ field. self.old ≡ field.now ∷ self.new) }
        ensures fewer_than_2_32 { IfSome result (λ field. length field.now < 2 ^ 32) }
    {
        if self.over {
            return None;
        }
        let text = self.rest;
        if !text.contains(&self.separator) {
            self.over = true;
            return Some(trim(text));
        }
        let (field, rest) = cut_at(self.separator, text);
        self.rest = rest;
        Some(trim(field))
    }

    // The same fields once more.
    fn again(&self) -> Fields<'a>
        ensures { result ≡ self.now }
    {
        Fields {
            separator: self.separator,
            rest: self.rest,
            over: self.over,
        }
    }

    /// Takes so many fields, or all where there are fewer.
    pub(crate) fn skip(&mut self, count: usize)
        ensures { self.new ≡ drop count self.old }
    {
        'fields: for _ in 0..count {
            self.pass();
        }
    }

    // Takes a field, where there is one.
    fn pass(&mut self)
        ensures { self.new ≡ drop 1 self.old }
    {
        let _ = self.next_field();
    }

    /// Whether so many fields are left.
    pub(crate) fn has_count(&self, count: usize) -> bool
        ensures { result ≡ (length self.now == count) }
    {
        let mut fields = self.again();
        let mut left = count;
        'fields: while let Some(_) = fields.next_field() {
            if left == 0 {
                return false;
            }
            left -= 1;
        }
        left == 0
    }
}
