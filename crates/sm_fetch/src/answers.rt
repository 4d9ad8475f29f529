//! Answers that are given in turn.

use sm_model::{Bytes, Sequence};

/// What a dial in memory gives at one exchange.
#[derive(Debug, Drop)]
pub enum Given {
    Bytes(Bytes),
    Lost,
}

/// What a dial in memory gives, exchange by exchange, which contracts see as a list.
pub type Answers = Sequence<Given>;
