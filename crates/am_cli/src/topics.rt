//! What help is asked of.

ghost use Rattle.std.specs.Prelude.{◌≡◌, bytes_eq, map};
ghost use Rattle.am_cli.specs.Topics.{input_of, name_of, reads_input, topic_named, topic_of, word_at};

/// A command, of which help may be asked.
#[derive(Clone, Copy, Debug, PartialEq, Eq)]
pub enum Topic {
    Script,
    Trace,
    Draw,
    World,
    Serve,
    Explore,
    Judge,
    Import,
    Threads,
    Help,
}

/// All commands, in the order of help.
pub(crate) static TOPICS: [Topic; 10] = [
    Topic::Script,
    Topic::Trace,
    Topic::Draw,
    Topic::World,
    Topic::Serve,
    Topic::Explore,
    Topic::Judge,
    Topic::Import,
    Topic::Threads,
    Topic::Help,
];

impl Topic {
    /// The name of the command.
    pub fn name(self) -> &'static str
        ensures { result.now ≡ name_of self }
    {
        match self {
            Topic::Script => "script",
            Topic::Trace => "trace",
            Topic::Draw => "draw",
            Topic::World => "world",
            Topic::Serve => "serve",
            Topic::Explore => "explore",
            Topic::Judge => "judge",
            Topic::Import => "import",
            Topic::Threads => "threads",
            Topic::Help => "help",
        }
    }

    /// Whether the command reads standard input.
    pub(crate) fn reads_input(self) -> bool
        ensures { result ≡ reads_input self }
    {
        match self {
            Topic::Script => true,
            Topic::Trace => true,
            Topic::Draw => true,
            Topic::World => true,
            Topic::Serve => true,
            Topic::Explore => true,
            Topic::Judge => true,
            Topic::Import => true,
            Topic::Threads => false,
            Topic::Help => false,
        }
    }

    /// What it reads there.
    pub(crate) fn input(self) -> &'static str
        ensures { result.now ≡ input_of self }
    {
        match self {
            Topic::Script => "script",
            Topic::Trace => "script",
            Topic::Draw => "script",
            Topic::World => "script",
            Topic::Serve => "session",
            Topic::Explore => "scene",
            Topic::Judge => "trace",
            Topic::Import => "mountinfo",
            Topic::Threads => "nothing",
            Topic::Help => "nothing",
        }
    }
}

pub(crate) fn is_word(word: &str, name: &str) -> bool
    ensures { result ≡ bytes_eq word.now name.now }
{
    word == name
}

/// The command of this name.
pub(crate) fn topic_named(word: &str) -> Option<Topic>
    ensures { result ≡ topic_named word.now }
{
    if is_word(word, "script") {
        return Some(Topic::Script);
    }
    if is_word(word, "trace") {
        return Some(Topic::Trace);
    }
    if is_word(word, "draw") {
        return Some(Topic::Draw);
    }
    if is_word(word, "world") {
        return Some(Topic::World);
    }
    if is_word(word, "serve") {
        return Some(Topic::Serve);
    }
    if is_word(word, "explore") {
        return Some(Topic::Explore);
    }
    if is_word(word, "judge") {
        return Some(Topic::Judge);
    }
    if is_word(word, "import") {
        return Some(Topic::Import);
    }
    if is_word(word, "threads") {
        return Some(Topic::Threads);
    }
    if is_word(word, "help") {
        return Some(Topic::Help);
    }
    None
}

/// The word at a place, or nothing.
pub(crate) fn word_at<'a>(words: &[&'a str], place: usize) -> &'a str
    ensures { result.now ≡ word_at (map (λ word. word.now) words.now) place }
{
    match words.get(place) {
        Some(word) => word,
        None => "",
    }
}

/// The command that a command line names, of which the first word is the program's name.
pub(crate) fn topic_of(words: &[&str]) -> Option<Topic>
    ensures { result ≡ topic_of (map (λ word. word.now) words.now) }
{
    topic_named(word_at(words, 1))
}
