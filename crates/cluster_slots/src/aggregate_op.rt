/// How the bits in the replies of several nodes are joined, index by index.
#[derive(Clone, Copy, Debug, PartialEq, Eq)]
pub enum LogicalAggregateOp {
    /// 1 if every reply has 1: `SCRIPT EXISTS sha1`.
    And,
    /// 1 if some reply has 1. No name of a command has this policy.
    Or,
}

/// How the numbers in the replies of several nodes make one.
#[derive(Clone, Copy, Debug, PartialEq, Eq)]
pub enum AggregateOp {
    /// The least: `WAIT 1 100`.
    Min,
    /// The sum: `DBSIZE`.
    Sum,
}
