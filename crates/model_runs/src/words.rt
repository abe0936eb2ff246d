//! The words of a line.

/// A call: the line that says it, and how often it was made before.
#[derive(Clone, Copy)]
pub struct Call<'a> {
    pub line: &'a str,
    pub turn: usize,
}

impl<'a> Call<'a> {
    /// What comes after this many words.
    pub fn after(&self, count: usize) -> &'a str {
        let mut rest = self.line;
        for _ in 0..count {
            rest = rest.split_once(' ').unwrap_or((rest, "")).1;
        }
        rest
    }

    /// The word with this many before it; an empty one if there is none.
    pub fn word(&self, index: usize) -> &'a str {
        let rest = self.after(index);
        rest.split_once(' ').unwrap_or((rest, "")).0
    }

    /// The number that a word is; 0 if it is none.
    pub fn number(&self, index: usize) -> usize {
        self.word(index).parse::<usize>().unwrap_or(0)
    }
}
