//! What a line of a scene was expected to have.

ghost use Rattle.std.specs.Prelude.{◌≡◌};
ghost use Rattle.am_explain.specs.SceneExpectations.{scene_words};

use am_diagnosis::Expected;

/// What a line of a scene was expected to have at a place (docs/FORMATS.md, "Lines of a scene" and
/// "Questions of a scene").
#[derive(Clone, Copy, Debug, PartialEq, Eq)]
pub enum SceneExpected {
    /// What a line of a script has there.
    InScript { expected: Expected },
    SceneLine,
    LaterLine,
    ThreadName,
    FreeName,
    Daemon,
    Failure,
    FailureNumber,
    ServedLine,
    AskedThread,
    WorldLine,
    AskedEvent,
    KnownThread,
    KnownEvent,
    Answer,
}

impl SceneExpected {
    /// What was expected, in words.
    pub fn words(self) -> &'static str
        ensures { result.now ≡ scene_words self }
    {
        match self {
            SceneExpected::InScript { expected } => expected.words(),
            SceneExpected::SceneLine => "thread, serve, sometimes, never or always",
            SceneExpected::LaterLine => "sometimes, never or always, as above",
            SceneExpected::ThreadName => "the name of the thread",
            SceneExpected::FreeName => "a name that no thread above has",
            SceneExpected::Daemon => "daemon",
            SceneExpected::Failure => "fail or the end of the line",
            SceneExpected::FailureNumber => "the number of an error, 1 to 9",
            SceneExpected::ServedLine =>
                "thread, sometimes, never or always: how the daemon serves stands above",
            SceneExpected::AskedThread => "the name of a thread",
            SceneExpected::WorldLine => "a line of a world: a number, # or * first",
            SceneExpected::AskedEvent => "the number of an event, or waiting",
            SceneExpected::KnownThread => "the name of a thread above, or a line of a world",
            SceneExpected::KnownEvent => "the number of an event of the thread, or waiting alone",
            SceneExpected::Answer =>
                "an answer: wait, at, err or fail with its words or *, or * alone",
        }
    }
}

/// Where a line of a scene isn't as expected.
#[derive(Clone, Copy, Debug, PartialEq, Eq)]
pub struct SceneSlip {
    /// The byte of the line, from 1; one past the last byte where the line ends too early.
    pub column: usize,
    pub expected: SceneExpected,
}
