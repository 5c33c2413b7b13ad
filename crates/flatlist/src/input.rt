// A sheet's words: eight lowercase hex digits each, a word a line; the last line's end may be missing.
// Six words stand before the scene, which has at most 1,024. A word takes nine bytes, its end with it,
// so 9,270 bytes are the most, and one more shows that a sheet is too long.
ghost use Rattle.std.specs.Prelude.{◌≡◌, ◌<◌, ◌≤◌, length};
ghost use Rattle.flatlist.specs.Form.{digit_of, words_from, one_word, placed, judged_by, sheet_of};

// So many words, with zeros behind. No slice: the program has no heap, and a sheet leaves its reader by value.
#[derive(Clone, Copy)]
pub struct Sheet {
    pub count: usize,
    pub words: [u32; 1030],
}

// The value of a lowercase hex digit.
#[tactic(auto, unfolding(crate::specs::Form::digit_of))]
fn digit(b: u8) -> Option<u32>
    ensures { result ≡ digit_of b }
{
    match b {
        b'0'..=b'9' => Some((b - b'0') as u32),
        b'a'..=b'f' => Some((b - b'a') as u32 + 10),
        _ => None,
    }
}

// The word of a line, whose end may be missing.
fn word_of(line: &[u8]) -> Option<u32>
    requires { (0 < length line.now) × (length line.now ≤ 9) }
    ensures { words_from 8 0 line.now ≡ one_word result }
{
    let mut word: u32 = 0;
    let digits = line.get(..8)?;
    for b in digits {
        word = word * 16 + digit(*b)?;
    }
    if line.len() > 8 && line[8] != b'\n' {
        return None;
    }
    Some(word)
}

// The words of the text, where it is in the form and has not too many. Each line has nine bytes, and the last at least
// eight.
fn read_words(text: &[u8]) -> Option<Sheet>
    ensures { result ≡ placed (words_from 8 0 text.now) }
{
    let mut words = [0u32; 1030];
    let mut count: usize = 0;
    for line in text.chunks(9) {
        let word = word_of(line)?;
        if count >= 1030 {
            return None;
        }
        words[count] = word;
        count += 1;
    }
    Some(Sheet { count, words })
}

#[tactic(auto, unfolding(crate::specs::Form::judged_by))]
fn judge(sheet: Sheet) -> Option<Sheet>
    ensures { result ≡ judged_by sheet }
{
    if sheet.count < 6 {
        return None;
    }
    if sheet.words[5] > 16 {
        return None;
    }
    Some(sheet)
}

// The sheet of a text: none exactly where docs/FLATLIST.md says `bad input`.
#[tactic(auto, unfolding(crate::specs::Form::sheet_of, crate::specs::Form::judged))]
pub fn read_sheet(text: &[u8]) -> Option<Sheet>
    ensures { result ≡ sheet_of text.now }
{
    judge(read_words(text)?)
}
