//! What the types of words say of their values.
ghost use Rattle.std.specs.List.{AllByRecursion};
ghost use Rattle.std.specs.Prelude.{◌<◌, ◌^◌};
ghost use Rattle.mdcc_theorem_worlds.specs.Words.{HasBody, IsGivenWord};

use mdcc_def_language::UpdateWord;
use mdcc_option::Item;

// Bytes are below 256.
fn bytes_given(bytes: &[u8])
    ensures { AllByRecursion (λ b. b < 2 ^ 8) bytes.now }
{
    for byte in bytes {
        let _byte = *byte;
    }
}

// A body is of at most 128 bytes.
fn body_given(item: &Item)
    ensures { HasBody item.now }
{
    bytes_given(item.body.as_slice());
}

// A new item is written under a key.
fn word_given(word: &UpdateWord)
    ensures { IsGivenWord word.now }
{
    match word {
        UpdateWord::New(key, item) => {
            let _key = key.bytes();
            body_given(item);
        }
        UpdateWord::Set(_, item) => body_given(item),
        _ => {}
    }
}

/// Keys and bodies of words are such.
pub(crate) fn words_given(words: &[UpdateWord])
    ensures { AllByRecursion IsGivenWord words.now }
{
    for word in words {
        word_given(word);
    }
}
