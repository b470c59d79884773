ghost use Rattle.std.specs.Prelude.{◌≡◌, length, IfOk};

use sdc_base::{Dimension, Dimensions, Few, Place, Text};
use std::alloc::{AllocError, Global};

/// A text for each of these.
pub fn texts(alloc: Global, all: &[&[u8]]) -> Result<Vec<Text>, AllocError>
    ensures { IfOk result (λ made. length made.items ≡ length all.now) }
{
    let mut made = Vec::new(alloc);
    'texts: for bytes in all {
        made.push(Text::from_slice(alloc, bytes)?)?;
    }
    Ok(made)
}

/// The short list of the first eight of these numbers.
pub fn place(numbers: &[u32]) -> Place {
    Few::of(&numbers[..numbers.len().min(8)])
}

/// A short list for each of these.
pub fn places(alloc: Global, lists: &[&[u32]]) -> Result<Vec<Place>, AllocError>
    ensures { IfOk result (λ made. length made.items ≡ length lists.now) }
{
    let mut made = Vec::new(alloc);
    'lists: for numbers in lists {
        made.push(place(numbers))?;
    }
    Ok(made)
}

/// A table of the first eight of these variables, with their depths, for each of these lists.
pub fn tables(alloc: Global, lists: &[&[Dimension]]) -> Result<Vec<Dimensions>, AllocError>
    ensures { IfOk result (λ made. length made.items ≡ length lists.now) }
{
    let mut made = Vec::new(alloc);
    'lists: for dimensions in lists {
        made.push(Few::of(&dimensions[..dimensions.len().min(8)]))?;
    }
    Ok(made)
}
