ghost use Rattle.std.specs.Prelude.{◌≡◌, ◌++◌, ◌∷◌, [], map, IfOk, OnOk};
ghost use Rattle.std.specs.List.{join_with_byte};
ghost use Rattle.cell_listing.specs.Columns as spec;

use sdc_base::{Items, Memory, Text};
use std::alloc::Global;

/// Puts the words, with a blank between them, behind the fields that are there, as one field.
pub(crate) fn add_spaced(
    alloc: Global,
    fields: &mut Items<Text>,
    words: &[Text],
) -> Result<(), Memory>
    ensures { OnOk result (fields.new ≡ fields.old ++ spec.spaced words.now ∷ []) }
{
    fields.push(spaced(alloc, words)?)
}

// The words with a blank between them.
fn spaced(alloc: Global, words: &[Text]) -> Result<Text, Memory>
    ensures { IfOk result (λ text. text ≡ spec.spaced words.now) }
{
    let mut text = Vec::new(alloc);
    'words: for (place, word) in words.iter().enumerate() {
        append(&mut text, place, word.as_slice())?;
    }
    Ok(Text::new(text))
}

// Appends a word, behind a blank where it isn't the first.
fn append(text: &mut Vec<u8>, place: usize, word: &[u8]) -> Result<(), Memory>
    ensures { OnOk result (text.new.items ≡ text.old.items ++ spec.blank_before place ++ word.now) }
{
    text.extend_from_slice(blank_before(place))?;
    text.extend_from_slice(word)?;
    Ok(())
}

// A blank before a word that isn't the first.
fn blank_before(place: usize) -> &'static [u8]
    ensures { result.now ≡ spec.blank_before place }
{
    if place == 0 { b"" } else { b" " }
}

/// Puts the fields behind those that are there.
pub(crate) fn add_all(fields: &mut Items<Text>, more: Items<Text>) -> Result<(), Memory>
    ensures { OnOk result (fields.new ≡ fields.old ++ more) }
{
    'fields: for field in more.into_vec() {
        fields.push(field)?;
    }
    Ok(())
}

/// Puts words behind the fields that are there.
pub(crate) fn add_words(
    alloc: Global,
    fields: &mut Items<Text>,
    words: &[&[u8]],
) -> Result<(), Memory>
    ensures { OnOk result (fields.new ≡ fields.old ++ map (λ word. word.now) words.now) }
{
    'words: for word in words {
        add_word(alloc, fields, word)?;
    }
    Ok(())
}

/// Puts a word behind the fields that are there.
pub(crate) fn add_word(alloc: Global, fields: &mut Items<Text>, word: &[u8]) -> Result<(), Memory>
    ensures { OnOk result (fields.new ≡ fields.old ++ word.now ∷ []) }
{
    fields.push(Text::from_slice(alloc, word)?)?;
    Ok(())
}
