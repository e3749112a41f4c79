// How a replay comes out.
#[derive(Clone, Copy)]
pub(crate) enum Outcome {
    Answered = 0,
    Short = 1,
    NoMemory = 2,
    TooMany = 3,
}
