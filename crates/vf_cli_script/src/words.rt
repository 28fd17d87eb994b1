//! The words of a line, with one space between two of them.
ghost use Rattle.std.specs.Prelude.{◌≡◌, ◌<◌, None, IfOk, IfSome, length, map};
ghost use Rattle.std.specs.List.{position};
ghost use Rattle.vf_cli_script.specs.Words.{is_space, words_of as words_meant};

use std::alloc::Global;
use vf_base::NoMemory;

/// So many words a line has at most.
const MOST_WORDS: usize = 4;

/// The words of a line, in its order; `None` exactly where there are more than four.
pub(crate) fn words_of(alloc: Global, line: &[u8]) -> Result<Option<Vec<&[u8]>>, NoMemory>
    ensures some { IfOk result (λ words. IfSome words (λ words. words_meant line.now ≡ map (λ word. word.now) words.items)) }
    ensures none { IfOk result (λ words. words ≡ None → 4 < length (words_meant line.now)) }
{
    let mut words = Vec::new(alloc);
    let mut rest = line;
    while let Some(place) = place_of_space(rest) {
        if words.len() + 1 >= MOST_WORDS {
            return Ok(None);
        }
        let (word, later) = rest.split_at(place);
        let (_, later) = later.split_at(1);
        words.push(word)?;
        rest = later;
    }
    words.push(rest)?;
    Ok(Some(words))
}

fn place_of_space(text: &[u8]) -> Option<usize>
    ensures { result ≡ position is_space text.now }
{
    text.iter().position(|octet| *octet == b' ')
}
