/// Which of two announcements is better, and whether by topology alone
/// (IEEE 1588-2019, 9.3.4, figures 34 and 35).
#[derive(Clone, Copy, Debug, PartialEq, Eq)]
pub enum Order {
    /// The first is better.
    ABetter,
    /// The first is better by topology.
    ATopo,
    /// The second is better.
    BBetter,
    /// The second is better by topology.
    BTopo,
    /// Neither.
    Same,
}
