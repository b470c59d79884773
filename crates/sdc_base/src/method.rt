/// How a job protects its tables.
#[derive(Clone, Copy, Debug, PartialEq, Eq)]
pub enum Method {
    /// `GH(n)`: hypercubes, in so many passes, 1 to 8.
    Gh(u32),
    /// `MOD()`: hypercubes, in one pass.
    Modular,
    /// `RND(b)`: controlled rounding to this base, 1 to 10^9, in whole numbers of the response.
    Rnd(i128),
}
