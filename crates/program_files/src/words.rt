ghost use Rattle.std.specs.Prelude.{◌≡◌, [], IsUtf8};

use sdc_base::{Memory, Text};
use std::alloc::Global;
use std::env::FillError;
use std::rt::Env;

/// The words of the call: each argument after the program's name, in order.
///
/// An argument that isn't UTF-8 gives an empty word. `std::env::args` refuses all arguments where
/// one isn't UTF-8, so the arguments are asked for one by one, as bytes.
pub fn words_of<E: Env>(env: &E, alloc: Global) -> Result<Vec<Text>, Memory> {
    let mut words = Vec::new(alloc);
    for i in 1..usize::MAX {
        let Some(bytes) = argument(env, alloc, i)? else {
            break;
        };
        words.push(word_from(bytes))?;
    }
    Ok(words)
}

// The bytes of an argument, or none past the last. The buffer is doubled until they fit.
fn argument<E: Env>(env: &E, alloc: Global, i: usize) -> Result<Option<Vec<u8>>, Memory> {
    let mut room = 256usize;
    for _ in 0..usize::BITS {
        let mut bytes = vec![in alloc; 0u8; room]?;
        match env.arg(i, bytes.as_mut_slice()) {
            Ok(n) => {
                bytes.truncate(n);
                return Ok(Some(bytes));
            }
            Err(FillError::NotPresent) => return Ok(None),
            Err(FillError::TooLong) => {}
        }
        room = room.saturating_add(room);
    }
    Err(Memory)
}

// The word of an argument's bytes.
fn word_from(bytes: Vec<u8>) -> Text
    ensures text { IsUtf8 bytes.items → result ≡ bytes.items }
    ensures other { ¬ IsUtf8 bytes.items → result ≡ [] }
{
    if str::from_utf8(bytes.as_slice()).is_ok() {
        return Text::new(bytes);
    }
    let mut none = bytes;
    none.clear();
    Text::new(none)
}

#[cfg(test)]
mod tests {
    use super::words_of;
    use std::env::FillError;
    use std::rt::Env;
    use std::test::Fail;

    const ARGUMENTS: [&[u8]; 5] = [b"argus", b"run", b"\xc3\xa9", b"a\xff", b""];

    const LONG: usize = 5;

    const WORDS: [&[u8]; 5] = [b"run", b"\xc3\xa9", b"", b"", &[b'x'; 600]];

    #[derive(Drop)]
    struct Given;

    impl Env for Given {
        fn arg(&self, i: usize, buf: &mut [u8]) -> Result<usize, FillError> {
            if i == LONG {
                if buf.len() < 600 {
                    return Err(FillError::TooLong);
                }
                buf[..600].fill(b'x');
                return Ok(600);
            }
            let Some(bytes) = ARGUMENTS.get(i) else {
                return Err(FillError::NotPresent);
            };
            if bytes.len() > buf.len() {
                return Err(FillError::TooLong);
            }
            buf[..bytes.len()].copy_from_slice(bytes);
            Ok(bytes.len())
        }

        fn var(&self, _name: &str, _buf: &mut [u8]) -> Result<usize, FillError> {
            Err(FillError::NotPresent)
        }

        fn var_at(&self, _i: usize, _buf: &mut [u8]) -> Result<usize, FillError> {
            Err(FillError::NotPresent)
        }
    }

    // The fourth argument isn't UTF-8, and the sixth is longer than the first buffer.
    #[test]
    fn each_argument_is_a_word(rt: HostRuntime) -> Result<(), Fail> {
        let words = words_of(&Given, rt.alloc())?;
        assert_eq!(rt; words.len(), WORDS.len());
        for (word, want) in words.iter().zip(&WORDS) {
            assert_eq!(rt; word.as_slice(), *want);
        }
        Ok(())
    }
}
