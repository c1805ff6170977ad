/// A rule and a subject, whose errors are kept together. Pairs stand by rule, then by subject.
#[derive(Clone, Copy, Debug, PartialEq, Eq, PartialOrd, Ord)]
pub struct Pair {
    /// The number of the rule.
    pub rule: u16,
    /// The handle of the subject.
    pub subject: u32,
}
