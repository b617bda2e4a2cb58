ghost use Rattle.std.specs.Prelude.{◌≡◌, ◌≢◌, MatchOption};

use dn_io::Status;
use thiserror::Error;

/// What the program says on standard error of a run that failed.
#[derive(Debug, Drop, Error)]
pub enum Fault<'w> {
    #[error("line {0} isn't valid")]
    BadLine(u64),
    #[error("standard input couldn't be read")]
    Read,
    #[error("standard output couldn't be written")]
    Write,
    #[error("memory ran out")]
    Memory,
    #[error("a line has more than 200,000 bytes, or reaches past byte 2^30 of the input")]
    LongLine,
    #[error("a datagram couldn't be received")]
    Link,
    #[error("a word of the command line isn't UTF-8")]
    NoText,
    #[error("a command is missing")]
    NoWord,
    #[error("{0:?} is no command")]
    NoCommand(&'w str),
    #[error("{0:?} is a command that isn't built yet")]
    NotBuilt(&'w str),
    #[error("{0:?} is a word too many")]
    TooMany(&'w str),
}

impl<'w> Fault<'w> {
    /// What is to be said of a run of this status, none where it went well. The words are those of the command line, none
    /// where one of them isn't UTF-8.
    pub fn of(status: &Status, words: Option<&'w [String]>) -> Option<Fault<'w>>
        ensures { MatchOption result (status.now ≡ Status.Done) (λ fault. status.now ≢ Status.Done) }
    {
        match status {
            Status::Done => None,
            Status::BadLine(number) => Some(Fault::BadLine(*number)),
            Status::Usage => Some(match words {
                Some(words) => of_words(words),
                None => Fault::NoText,
            }),
            Status::ReadFault => Some(Fault::Read),
            Status::WriteFault => Some(Fault::Write),
            Status::OutOfMemory => Some(Fault::Memory),
            Status::TooLong => Some(Fault::LongLine),
            Status::LinkFault => Some(Fault::Link),
        }
    }
}

// The words that do something alone.
fn stands_alone(word: &str) -> bool {
    word == "replay" || word == "show" || word == "pack" || word == "--help" || word == "--version"
}

// The commands that `command_of` knows and nothing does yet.
fn is_unbuilt(word: &str) -> bool {
    word == "serve" || word == "generate"
}

// Why these words, which are no command that is done, aren't one.
fn of_words(words: &[String]) -> Fault<'_> {
    let Some((first, rest)) = words.split_first() else {
        return Fault::NoWord;
    };
    let first = first.as_str();
    if is_unbuilt(first) {
        return Fault::NotBuilt(first);
    }
    match rest.first() {
        Some(second) if stands_alone(first) => Fault::TooMany(second.as_str()),
        _ => Fault::NoCommand(first),
    }
}
