/// What a run has seen: an action sent on the input channel, one received on the output channel, or quiescence.
#[derive(Clone, Copy)]
pub enum Seen {
    In(i128),
    Out(i128),
    Quiet,
}

/// How a run ends.
#[derive(Clone, Copy)]
pub enum Ending {
    /// The rules do not allow what was observed.
    Fail,
    /// A call of the system failed.
    Link,
    /// The system told what is not read so far.
    Later,
}

/// A line of the transcript. Actions and quiescence are numbered from 1.
#[derive(Clone, Copy)]
pub enum Note {
    Tester,
    In { number: usize, value: i128 },
    Out { number: usize, value: i128 },
    Quiet { number: usize },
    NotCommand,
    NotAllowed,
    Ended(Ending),
}
