/// Why a change of a topology is refused.
#[derive(Clone, Copy, PartialEq, Eq, Debug)]
pub enum Cause {
    /// There is a class of this name.
    ClassTaken,
    /// There are 64 classes.
    ClassesFull,
    /// There is no such class.
    NoClass,
    /// The classes do not have the kinds that the rule takes, or are one where they should be two.
    Unfit,
    /// An equal rule is in force.
    RuleThere,
    /// There are 256 rules.
    RulesFull,
    /// No rule in force has this number.
    NoRule,
    /// The shape's kind is not the class's.
    WrongKind,
    /// No live feature has this handle.
    NoFeature,
    /// The next handle is 4,294,967,295, which is never given.
    HandlesSpent,
    /// There is no error of this key.
    NoError,
    /// The mark is so already.
    AlreadySo,
}
