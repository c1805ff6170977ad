use thiserror::Error;

/// Why a rule was not dropped: no rule in force has this number.
#[derive(Debug, Drop, Error)]
#[error("there is no such rule")]
pub struct NoRule;
