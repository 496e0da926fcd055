// Why the program stops before the end of the book.
use letters::Refusal;
use std::io;
use thiserror::Error;

#[derive(Debug, Drop, Error)]
pub enum Stop {
    #[error("refused {0}")]
    Refused(#[from] Refusal),
    #[error(transparent)]
    NotPrinted(#[from] io::Error),
}
