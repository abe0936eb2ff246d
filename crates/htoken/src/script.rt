//! The level of script data (HTML Standard, `#script-data-less-than-sign-state` to `#script-data-double-escape-end-state`).

ghost use Rattle.std.specs.Prelude.{◌≡◌, [], ◌∷◌, ◌==◌, ◌&&◌, ℕ, List, nat_lt, bit_and};
ghost use Rattle.htoken.specs.Vocabulary.{byte_of, Character, chars, ends_name, FollowsAll, HasFront, level_number, next_level, placed};

use names::Placed;

/// How deep script data is in comment-like text.
#[derive(Clone, Copy)]
pub(crate) enum Level {
    /// Not at all: the script data state (`#script-data-state`).
    Plain,
    /// After `<!--`: the script data escaped state (`#script-data-escaped-state`).
    Escaped,
    /// After `<!--` and `<script`: the script data double escaped state (`#script-data-double-escaped-state`).
    DoubleEscaped,
}

/// Follows script data, a character at a time. What the last characters are says when a mark or a tag ends: the script data escape start
/// states, those after a dash in escaped and double escaped script data (`#script-data-escape-start-state`,
/// `#script-data-escape-start-dash-state`, `#script-data-escaped-dash-state`, `#script-data-escaped-dash-dash-state`,
/// `#script-data-double-escaped-dash-state`, `#script-data-double-escaped-dash-dash-state`), and the script data double escape start and
/// double escape end states (`#script-data-double-escape-start-state`, `#script-data-double-escaped-less-than-sign-state`,
/// `#script-data-double-escape-end-state`).
#[derive(Clone, Copy)]
pub(crate) struct Script {
    pub level: Level,
    /// The last eight characters, the last one lowest, each as a byte: in lower case, or 0 where it is not ASCII.
    pub last: u64,
}

/// `--`, `<!-`, `<script` and `</script`, as `Script` has its last characters.
const DASHES: u64 = 0x2D2D;

const LESS_BANG_DASH: u64 = 0x3C_212D;

const OPENS_SCRIPT: u64 = 0x3C_7363_7269_7074;

const ENDS_SCRIPT: u64 = 0x3C2F_7363_7269_7074;

/// A character as a byte: in lower case, or 0 where it is not ASCII.
#[inline(always)]
fn byte_of(ch: char) -> u64
    ensures { result ≡ byte_of ch }
{
    if ch.is_ascii() {
        ch.to_ascii_lowercase() as u64
    } else {
        0
    }
}

/// Whether a character ends a tag's name.
pub(crate) fn ends_name(ch: char) -> bool
    ensures { result ≡ ends_name ch }
{
    ch.is_ascii_whitespace() || ch == '/' || ch == '>'
}

impl Script {
    pub fn new() -> Script
        ensures { HasFront result [] }
    {
        Script {
            level: Level::Plain,
            last: 0,
        }
    }

    /// The script after more characters.
    pub fn after_all(self, text: &[Placed]) -> Script
        ensures { FollowsAll self text.now result }
    {
        let mut script = self;
        for p in text {
            script = script.after(p.ch);
        }
        script
    }

    /// The script after the characters of a text.
    pub fn after_text(self, text: &str) -> Script
        ensures { (at : ℕ) → FollowsAll self (placed at (chars text.now)) result }
    {
        let mut script = self;
        for ch in text.chars() {
            script = script.after(ch);
        }
        script
    }

    /// Whether an end tag may end the script here.
    pub fn may_end(self) -> bool
        ensures { result ≡ nat_lt (level_number self.level) 2 }
    {
        !matches!(self.level, Level::DoubleEscaped)
    }

    /// The script after one more character. Most of a script is outside comment-like text, and begins none.
    #[inline(always)]
    pub fn after(self, ch: char) -> Script
        ensures { (at : ℕ) (front : List Character) → HasFront self front → HasFront result (record { ch = ch; at = at } ∷ front) }
    {
        let last = self.last % 0x100_0000_0000_0000 * 256 + byte_of(ch);
        match self.level {
            Level::Plain if ch != '-' => Script { last, ..self },
            _ => Script {
                level: self.level_after(ch),
                last,
            },
        }
    }

    /// The level after one more character, which may end `-->`, `<!--`, or the name of `<script` or `</script`.
    #[inline(never)]
    fn level_after(self, ch: char) -> Level
        ensures { result ≡ next_level self ch }
    {
        let ends = ends_name(ch);
        match self.level {
            _ if self.is_marked(ch == '>', 0xFFFF, DASHES) => Level::Plain,
            Level::Plain if self.is_marked(ch == '-', 0xFF_FFFF, LESS_BANG_DASH) => Level::Escaped,
            Level::Escaped if self.is_marked(ends, 0xFF_FFFF_FFFF_FFFF, OPENS_SCRIPT) => {
                Level::DoubleEscaped
            }
            Level::DoubleEscaped if self.is_marked(ends, u64::MAX, ENDS_SCRIPT) => Level::Escaped,
            _ => self.level,
        }
    }

    /// Whether a character that may end a mark, or a tag's name, comes after it: the last characters are these.
    #[inline(always)]
    fn is_marked(self, may: bool, mask: u64, mark: u64) -> bool
        ensures { result ≡ (may && bit_and self.last mask == mark) }
    {
        may && self.last & mask == mark
    }
}
