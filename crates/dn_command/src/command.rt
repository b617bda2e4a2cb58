ghost use Rattle.std.specs.Prelude.{◌≡◌, [], ◌∷◌, false, nat_eq, length, map, MatchOption};
ghost use Rattle.std.specs.List.{slice_split};
ghost use Rattle.dn_word.specs.Numbers.{number_within};
ghost use Rattle.dn_command.specs.Command.{addr_of, command_alone, command_in, generate_command, serve_command};

use dn_io::Addr;
use dn_word::{cut, ip_of, number_within};

/// What the words of the command line ask for.
#[derive(Clone, Copy, Debug, PartialEq, Eq)]
pub enum Command {
    /// Stored values as text.
    Show,
    /// Text as stored values.
    Pack,
    /// A script's transcript.
    Replay,
    /// A generated run of so many steps.
    Generate(u32),
    /// A server at an address, which replicates at another.
    Serve { at: Addr, sync: Addr },
    /// None of these.
    Usage,
}

/// The most steps of a generated run.
const MOST_STEPS: u64 = 1_000_000;

// The two parts of a word with one colon.
#[tactic(auto, using(dn_word::proofs::CallerLemmas::has_parts))]
fn halves(word: &[u8]) -> Option<(&[u8], &[u8])>
    ensures { let parts = slice_split (λ byte. nat_eq byte 58) word.now in
        MatchOption result (nat_eq (length parts) 2 ≡ false) (λ two. parts ≡ two.0.now ∷ two.1.now ∷ []) }
{
    let (first, second) = cut(word, b':')?;
    match cut(second, b':') {
        None => Some((first, second)),
        Some(_) => None,
    }
}

fn port_of(word: &[u8]) -> Option<u16>
    ensures { result ≡ number_within 65535 word.now }
{
    u16::try_from(number_within(65535, word)?).ok()
}

fn steps_of(word: &str) -> Option<u32>
    ensures { result ≡ number_within 1000000 word.now }
{
    u32::try_from(number_within(MOST_STEPS, word.as_bytes())?).ok()
}

// The address of `IP:PORT`.
#[tactic(auto, unfolding(crate::specs::Command::addr_of, crate::specs::Command::addr_of_parts))]
fn addr_of(word: &str) -> Option<Addr>
    ensures { result ≡ addr_of word.now }
{
    let (ip, port) = halves(word.as_bytes())?;
    Some(Addr {
        ip: ip_of(ip)?,
        port: port_of(port)?,
    })
}

fn alone(word: &str) -> Command
    ensures { result ≡ command_alone word.now }
{
    if word == "show" {
        Command::Show
    } else if word == "pack" {
        Command::Pack
    } else if word == "replay" {
        Command::Replay
    } else {
        Command::Usage
    }
}

#[tactic(auto, unfolding(crate::specs::Command::generate_command))]
fn generate(word: &str, count: &str) -> Command
    ensures { result ≡ generate_command word.now count.now }
{
    if word != "generate" {
        return Command::Usage;
    }
    match steps_of(count) {
        Some(steps) => Command::Generate(steps),
        None => Command::Usage,
    }
}

#[tactic(auto, unfolding(crate::specs::Command::serve_command))]
fn serve(word: &str, at: &str, sync: &str) -> Command
    ensures { result ≡ serve_command word.now at.now sync.now }
{
    if word != "serve" {
        return Command::Usage;
    }
    match (addr_of(at), addr_of(sync)) {
        (Some(at), Some(sync)) => Command::Serve { at, sync },
        _ => Command::Usage,
    }
}

/// The command of the words: `show`, `pack`, `replay`, `generate N` with N up to 1,000,000, or `serve IP:PORT IP:PORT`.
/// Numbers are decimal without sign and leading zero.
#[tactic(auto, unfolding(crate::specs::Command::command_in))]
pub fn command_of(words: &[&str]) -> Command
    ensures { result ≡ command_in (map (λ word. word.now) words.now) }
{
    match words {
        [word] => alone(word),
        [word, count] => generate(word, count),
        [word, at, sync] => serve(word, at, sync),
        _ => Command::Usage,
    }
}
