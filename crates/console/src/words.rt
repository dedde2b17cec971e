// A line of the command text and its words, which stand apart by blanks.
ghost use Rattle.std.specs.Prelude.{◌≡◌, ◌<◌, ◌≤◌, length};
ghost use Rattle.std.specs.List.{prefix_len, suffix_len};
ghost use Rattle.console.specs.Words.{blank, ink, from_ink, to_ink, trimmed, word, behind, in_line, without_return, first_line, other_lines};

// A blank is a space or a tab.
pub(crate) fn is_blank(b: u8) -> bool
    ensures { result ≡ blank b }
{
    b == b' ' || b == b'\t'
}

// This and the next three have one chain each, and no function with a closure in common: its contract would be longer than they are.
// How many blanks the text begins with.
fn blanks_before(text: &[u8]) -> usize
    ensures value { result ≡ prefix_len blank text.now }
    ensures within { result ≤ length text.now }
{
    text.iter().take_while(|b| is_blank(**b)).count()
}

// How many blanks the text ends with.
fn blanks_behind(text: &[u8]) -> usize
    ensures value { result ≡ suffix_len blank text.now }
    ensures within { result ≤ length text.now }
{
    text.iter().rev().take_while(|b| is_blank(**b)).count()
}

// How many bytes the text's first word has.
fn word_len(text: &[u8]) -> usize
    ensures value { result ≡ prefix_len ink text.now }
    ensures within { result ≤ length text.now }
{
    text.iter().take_while(|b| !is_blank(**b)).count()
}

// How many bytes the text's first line has.
fn line_len(text: &[u8]) -> usize
    ensures value { result ≡ prefix_len in_line text.now }
    ensures within { result ≤ length text.now }
{
    text.iter().take_while(|b| **b != b'\n').count()
}

// The text without the blanks in front.
#[tactic(auto, unfolding(crate::specs::Words::from_ink))]
fn skip_blanks(text: &[u8]) -> &[u8]
    ensures { result.now ≡ from_ink text.now }
{
    &text[blanks_before(text)..]
}

// The text without the blanks behind.
#[tactic(auto, unfolding(crate::specs::Words::to_ink))]
fn drop_blanks(text: &[u8]) -> &[u8]
    ensures { result.now ≡ to_ink text.now }
{
    &text[..text.len() - blanks_behind(text)]
}

// The line without a carriage return at its end.
#[tactic(auto, unfolding(crate::specs::Words::without_return))]
fn drop_return(line: &[u8]) -> &[u8]
    ensures { result.now ≡ without_return line.now }
{
    match line {
        [front @ .., b'\r'] => front,
        _ => line,
    }
}

// The first line of a text, without what ends it, and the text behind it. The last line may lack its end.
#[tactic(auto, unfolding(crate::specs::Words::first_line, crate::specs::Words::other_lines))]
pub fn split_line(text: &[u8]) -> (&[u8], &[u8])
    ensures first { result.0.now ≡ first_line text.now }
    ensures rest { result.1.now ≡ other_lines text.now }
    ensures shorter { 0 < length text.now → length result.1.now < length text.now }
{
    let end = line_len(text);
    let rest = (end + 1).min(text.len());
    (drop_return(&text[..end]), &text[rest..])
}

// The line without the blanks in front and behind.
#[tactic(auto, unfolding(crate::specs::Words::trimmed))]
pub fn trim(line: &[u8]) -> &[u8]
    ensures { result.now ≡ trimmed line.now }
{
    drop_blanks(skip_blanks(line))
}

// The first word of a line that begins with one, and what stands behind it and its blanks.
#[tactic(auto, unfolding(crate::specs::Words::word, crate::specs::Words::behind))]
pub fn split_word(line: &[u8]) -> (&[u8], &[u8])
    ensures first { result.0.now ≡ word line.now }
    ensures rest { result.1.now ≡ behind line.now }
{
    let (word, rest) = line.split_at(word_len(line));
    (word, skip_blanks(rest))
}
