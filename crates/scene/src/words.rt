// A read of a lent list of words, checked.
ghost use Rattle.std.specs.Prelude.{◌≡◌};
ghost use Rattle.scene.specs.Words.{word_at};

use refusals::Refusal;

// Behind the last word it is refusal 2.
pub fn word_at(words: &[u32], at: u64) -> Result<u32, Refusal>
    ensures { result ≡ word_at words.now at }
{
    words.get(at as usize).copied().ok_or(Refusal::Outside)
}
