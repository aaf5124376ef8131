// What a worker calls before each line that it runs.

use joint_model::Thread;

/// What a worker calls before each line that it runs. It tells nothing; a test uses it to hold threads back.
pub trait Turnstile {
    /// The worker of `thread` is about to run that line.
    fn pass(&self, thread: Thread, line: u32);
}

/// The turnstile that does nothing.
#[derive(Clone, Copy, Debug)]
pub struct FreeTurn;

impl Turnstile for FreeTurn {
    fn pass(&self, _thread: Thread, _line: u32) {}
}
