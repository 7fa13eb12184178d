/// One removal: the place v of x, with the number of the constraint that is false with x at v.
#[derive(Clone, Copy, Debug)]
pub struct Step {
    pub x: u32,
    pub v: u16,
    pub c: u64,
}

/// What a turn of a constraint ends with.
#[derive(Clone, Copy, Debug)]
pub enum Turn {
    Rest,
    Fail,
}

/// What a closing ends with.
#[derive(Clone, Copy, Debug)]
pub enum Outcome {
    Closed,
    Empty { c: u64 },
}
