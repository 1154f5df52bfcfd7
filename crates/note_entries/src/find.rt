ghost use Rattle.std.specs.Prelude.{◌≡◌, Option, take};
ghost use Rattle.note_entries.specs.Storage.{pairs, first_with};

// What the first of n entries of a word says. The words are only shared.
pub fn find<W: Copy + PartialEq>(words: &[W], n: usize, r: W) -> Option<W>
    ensures { result ≡ first_with W.eq r (take n (pairs words.now)) }
{
    let m = usize::min(n, words.len() / 2);
    for k in 0..m {
        let x = words[2 * k];
        if x == r {
            return Some(words[2 * k + 1]);
        }
    }
    None
}
