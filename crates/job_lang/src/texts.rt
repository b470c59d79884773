ghost use Rattle.std.specs.Prelude.{◌≡◌, ◌++◌, OnOk};
ghost use Rattle.std.specs.List.{list_any};
ghost use Rattle.std.specs.Set.{distinct_count as distinct_number};
ghost use Rattle.std.specs.Str.{bytes_eq};
ghost use Rattle.job_lang.specs.TableTexts as spec;

use sdc_base::{Items, Memory, Text};
use std::alloc::Global;

/// Puts copies of texts at the end of a list.
pub(crate) fn add_texts(alloc: Global, all: &mut Items<Text>, texts: &[Text]) -> Result<(), Memory>
    ensures { OnOk result (all.new ≡ all.old ++ texts.now) }
{
    for text in texts {
        all.push(text.copy(alloc)?)?;
    }
    Ok(())
}

// Whether the text stands in a list.
fn has_text(text: &Text, texts: &[Text]) -> bool
    ensures { result ≡ list_any (bytes_eq text.now) texts.now }
{
    texts.iter().any(|other| text.equals(other))
}

/// How many different texts a list has.
pub(crate) fn distinct_count(texts: &[Text]) -> usize
    ensures { result ≡ distinct_number bytes_eq texts.now }
{
    let mut count = 0;
    for (k, text) in texts.iter().enumerate() {
        if !has_text(text, &texts[k + 1..]) {
            count += 1;
        }
    }
    count
}

/// Whether some text stands twice in a list.
pub(crate) fn is_twice(texts: &[Text]) -> bool
    ensures { result ≡ spec.is_twice texts.now }
{
    distinct_count(texts) < texts.len()
}
