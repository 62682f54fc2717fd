use crate::Note;

/// What a session does next.
#[derive(Clone, Copy)]
pub enum Doing {
    /// A line is written.
    Say(Note),
    Dial,
    /// What the system tells next is waited for.
    Wait,
    /// The line of an action on the input channel is sent.
    Send(i128),
    HangUp,
    /// The command line is carried out, and the next is due.
    Idle,
    /// The session ends.
    Quit,
}
