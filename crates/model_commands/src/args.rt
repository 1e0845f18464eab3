//! What a command line asks for.

use key_bytes::Bytes;
use model_database::Api;

/// What a run is asked to do.
#[derive(Debug, Drop)]
pub struct RunArgs {
    /// The prefix of the instructions of machine 0.
    pub prefix: Bytes,
    /// The version of the API that the run speaks.
    pub api: Api,
    /// The seed of the random words.
    pub seed: u64,
    /// How often the polls of one wait may be answered that it isn't decided yet.
    pub polls: u32,
    /// How many versions the window has that reads and commits may stand in, where there is one.
    pub window: Option<u32>,
}

/// A command of the program.
#[derive(Debug, Drop)]
pub enum Args {
    /// Runs the instructions of an input.
    Run(RunArgs),
    /// Runs them by the order that the input names.
    Replay(RunArgs),
    /// Runs the instructions that are made for so many workers, and tells of the run in a summary.
    Gen(u32),
    /// Reads events of watches, and writes what comes of them.
    Watch,
    /// Reads instruction text, and writes it as lines of an input.
    Asm,
    /// Reads lines of an input, and writes them as instruction text.
    Disasm,
}
