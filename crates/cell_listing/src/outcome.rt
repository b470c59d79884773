/// By what a cell came to be hidden.
#[derive(Clone, Copy, Debug, PartialEq, Eq)]
pub(crate) enum Origin {
    /// It is primary.
    Primary,
    /// A step of the plan has it as a corner.
    Step,
    /// A repair has it as its subject.
    Repair,
    /// It is hidden against a contributor, beside the cells of the certificate.
    Extra,
}

/// What a release made of a cell.
#[derive(Clone, Copy, Debug, PartialEq, Eq)]
pub(crate) enum Outcome {
    /// The tables show its truth.
    Shown,
    /// The tables hide it, and by what it came to that, where something says so.
    Hidden(Option<Origin>),
    /// The tables show this amount of units in place of its truth.
    Rounded(i128),
}
