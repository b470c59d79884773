/// A fraction of whole numbers.
#[derive(Clone, Copy)]
pub struct Fraction {
    /// What is divided.
    pub num: i128,
    /// What it is divided by, 1 or more.
    pub den: i128,
}
