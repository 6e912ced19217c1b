// A line's words: the runs of bytes other than spaces.
ghost use Rattle.std.specs.Prelude.{◌≡◌, ◌≤◌, ◌==◌, not, length, map};
ghost use Rattle.std.specs.List.{prefix_len, take_while};
ghost use Rattle.script.specs.Words.{trimmed, word, after, first_words, words_of};

// The first five words of `line`, each empty where there is none: no command has more than four.
// No bytes are copied: the words are parts of `line`.
pub fn split(line: &[u8]) -> [&[u8]; 5]
    ensures each { map (λ w. w.now) result ≡ words_of 5 line.now }
    ensures present { map (λ w. w.now) (take_while (λ w. not (length w.now == 0)) result) ≡ first_words 5 line.now }
{
    let (name, rest) = next_word(line);
    let (first, rest) = next_word(rest);
    let (second, rest) = next_word(rest);
    let (third, rest) = next_word(rest);
    let (more, _) = next_word(rest);
    [name, first, second, third, more]
}

// The words before the first that is empty.
pub fn present<'w, 'a>(words: &'w [&'a [u8]]) -> &'w [&'a [u8]]
    ensures { result.now ≡ take_while (λ w. not (length w.now == 0)) words.now }
{
    &words[..present_len(words)]
}

fn present_len(words: &[&[u8]]) -> usize
    ensures { result ≡ prefix_len (λ w. not (length w.now == 0)) words.now }
{
    words.iter().take_while(|word| !word.is_empty()).count()
}

// The first word of `line`, and what follows it.
fn next_word(line: &[u8]) -> (&[u8], &[u8])
    ensures found { result.0.now ≡ word line.now }
    ensures rest { result.1.now ≡ after line.now }
{
    let line = trimmed(line);
    line.split_at(word_len(line))
}

// `line` without the spaces at its start. They are taken off one by one: an index beside the line is one value more to keep in each of the loops over a line.
fn trimmed(line: &[u8]) -> &[u8]
    ensures { result.now ≡ trimmed line.now }
{
    let mut rest = line;
    while let [b' ', more @ ..] = rest {
        rest = more;
    }
    rest
}

// How many bytes stand before the first space of `line`.
fn word_len(line: &[u8]) -> usize
    ensures count { result ≡ prefix_len (λ b. not (b == 32)) line.now }
    ensures within { result ≤ length line.now }
{
    line.iter().position(|b| *b == b' ').unwrap_or(line.len())
}
