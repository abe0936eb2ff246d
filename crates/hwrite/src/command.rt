//! What the program is to do.

ghost use Rattle.std.specs.Prelude.{◌≡◌};
ghost use Rattle.hwrite.specs.Command.{task_named};

use hserialize::Escaping;

/// What is made of an input.
#[derive(Clone, Copy)]
pub enum Task {
    /// A line for each token of a document.
    Tokens,
    /// The tree, a line for each node and each attribute.
    Tree,
    /// A line for each parse error.
    Errors,
    /// The tree as HTML.
    Write,
    /// Whether a fragment is plain in its context.
    Plain,
}

impl Task {
    /// The task that a word of the command line names.
    pub fn named(word: &str) -> Option<Task>
        ensures { result ≡ task_named word.now }
    {
        match word {
            "tokens" => Some(Task::Tokens),
            "tree" | "fragment" => Some(Task::Tree),
            "errors" => Some(Task::Errors),
            "write" => Some(Task::Write),
            "plain" => Some(Task::Plain),
            _ => None,
        }
    }
}

/// A task, the name of the element in which the input is, how `Write` escapes, and how many bytes of the input are fed at a
/// time: 1 to 65,536. An input without such an element is a document. That of `Tokens` always is.
#[derive(Clone, Copy)]
pub struct Command<'a> {
    pub task: Task,
    pub context: Option<&'a str>,
    pub escaping: Escaping,
    pub piece: usize,
    /// Whether the process ends after it, so that the memory of the tree is left to the system.
    pub is_last: bool,
}
