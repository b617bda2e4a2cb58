ghost use Rattle.std.specs.Prelude.{◌≡◌, None, Some, MatchOption, map};
ghost use Rattle.dn_script.specs.Line.{admin_line, admin_words, ask_line, at_line, create_line, deliver_line, event_line, join_line, line_of, pass_line, pull_line, replica_line, udp_line, zone_line};
ghost use Rattle.dn_word.specs.Reading.{Reads};

use dn_admin::command_of;
use dn_io::{List, Moment};
use dn_name::Name;
use dn_rdata::A;
use dn_stamp::ReplicaId;
use dn_text::is_type_a;
use dn_word::{
    TextError, bytes_of_hex, cut_word, id_of, is_replica_name, is_word, moment_of, name_of,
    number_of,
};
use dn_zone::AdminCmd;
use std::alloc::Global;

// A line of a script, whatever replicas and zones there are.
#[derive(Drop)]
pub enum ScriptLine {
    /// `replica R ID HOST`
    Replica {
        name: List<u8>,
        id: ReplicaId,
        host: Name,
    },
    /// `zone create R Z MAILBOX`
    Create {
        replica: List<u8>,
        apex: Name,
        mailbox: Name,
    },
    /// `zone join R Z`
    Join {
        replica: List<u8>,
        apex: Name,
    },
    /// `pull B A Z`
    Pull {
        replica: List<u8>,
        supplier: List<u8>,
        apex: Name,
    },
    /// `pass R Z`
    Pass {
        replica: List<u8>,
        apex: Name,
    },
    /// `deliver K`
    Deliver {
        packet: u32,
    },
    /// `at TICKS`
    At {
        moment: Moment,
    },
    /// `admin R Z COMMAND`
    Admin {
        replica: List<u8>,
        apex: Name,
        cmd: AdminCmd,
    },
    /// `ask R NAME TYPE`
    Ask {
        replica: List<u8>,
        name: Name,
        qtype: u16,
    },
    /// `udp R HEX`
    Udp {
        replica: List<u8>,
        bytes: List<u8>,
    },
}

#[tactic(auto, unfolding(crate::specs::Line::replica_line))]
fn replica_line(alloc: Global, words: &[&[u8]]) -> Result<ScriptLine, TextError>
    ensures { Reads result (replica_line (map (λ word. word.now) words.now)) }
{
    let [name, id, host] = words else {
        return Err(TextError::BadText);
    };
    if !is_replica_name(name) {
        return Err(TextError::BadText);
    }
    let Some(id) = id_of(id) else {
        return Err(TextError::BadText);
    };
    let Some(host) = name_of(host) else {
        return Err(TextError::BadText);
    };
    Ok(ScriptLine::Replica {
        name: List::from_slice(alloc, name)?,
        id,
        host,
    })
}

#[tactic(auto, unfolding(crate::specs::Line::create_line))]
fn create_line(alloc: Global, words: &[&[u8]]) -> Result<ScriptLine, TextError>
    ensures { Reads result (create_line (map (λ word. word.now) words.now)) }
{
    let [replica, apex, mailbox] = words else {
        return Err(TextError::BadText);
    };
    let Some(apex) = name_of(apex) else {
        return Err(TextError::BadText);
    };
    let Some(mailbox) = name_of(mailbox) else {
        return Err(TextError::BadText);
    };
    Ok(ScriptLine::Create {
        replica: List::from_slice(alloc, replica)?,
        apex,
        mailbox,
    })
}

#[tactic(auto, unfolding(crate::specs::Line::join_line))]
fn join_line(alloc: Global, words: &[&[u8]]) -> Result<ScriptLine, TextError>
    ensures { Reads result (join_line (map (λ word. word.now) words.now)) }
{
    let [replica, apex] = words else {
        return Err(TextError::BadText);
    };
    let Some(apex) = name_of(apex) else {
        return Err(TextError::BadText);
    };
    Ok(ScriptLine::Join {
        replica: List::from_slice(alloc, replica)?,
        apex,
    })
}

#[tactic(auto, unfolding(crate::specs::Line::zone_line))]
fn zone_line(alloc: Global, words: &[&[u8]]) -> Result<ScriptLine, TextError>
    ensures { Reads result (zone_line (map (λ word. word.now) words.now)) }
{
    match words {
        [verb, rest @ ..] if is_word(verb, b"create") => create_line(alloc, rest),
        [verb, rest @ ..] if is_word(verb, b"join") => join_line(alloc, rest),
        _ => Err(TextError::BadText),
    }
}

#[tactic(auto, unfolding(crate::specs::Line::at_line))]
fn at_line(words: &[&[u8]]) -> Option<ScriptLine>
    ensures { result ≡ at_line (map (λ word. word.now) words.now) }
{
    let [ticks] = words else {
        return None;
    };
    let moment = moment_of(ticks)?;
    Some(ScriptLine::At { moment })
}

// The two words behind the first one, and what stands behind them.
#[tactic(auto, unfolding(crate::specs::Line::admin_words))]
fn admin_words(text: &[u8]) -> Option<(&[u8], &[u8], &[u8])>
    ensures { let there = admin_words text.now in
        MatchOption result (there ≡ None) (λ found. there ≡ Some (found.0.now, found.1.now, found.2.now)) }
{
    let (_, rest) = cut_word(text)?;
    let (replica, rest) = cut_word(rest)?;
    let (apex, rest) = cut_word(rest)?;
    Some((replica, apex, rest))
}

// The command stays a text, as blanks in quotes belong to its data.
#[tactic(auto, unfolding(crate::specs::Line::admin_line))]
fn admin_line(alloc: Global, text: &[u8]) -> Result<ScriptLine, TextError>
    ensures { Reads result (admin_line text.now) }
{
    let Some((replica, apex, command)) = admin_words(text) else {
        return Err(TextError::BadText);
    };
    let Some(apex) = name_of(apex) else {
        return Err(TextError::BadText);
    };
    let cmd = command_of(alloc, command)?;
    Ok(ScriptLine::Admin {
        replica: List::from_slice(alloc, replica)?,
        apex,
        cmd,
    })
}

#[tactic(auto, unfolding(crate::specs::Line::ask_line))]
fn ask_line(alloc: Global, words: &[&[u8]]) -> Result<ScriptLine, TextError>
    ensures { Reads result (ask_line (map (λ word. word.now) words.now)) }
{
    let [replica, name, qtype] = words else {
        return Err(TextError::BadText);
    };
    let Some(name) = name_of(name) else {
        return Err(TextError::BadText);
    };
    if !is_type_a(qtype) {
        return Err(TextError::BadText);
    }
    Ok(ScriptLine::Ask {
        replica: List::from_slice(alloc, replica)?,
        name,
        qtype: A,
    })
}

#[tactic(auto, unfolding(crate::specs::Line::udp_line))]
fn udp_line(alloc: Global, words: &[&[u8]]) -> Result<ScriptLine, TextError>
    ensures { Reads result (udp_line (map (λ word. word.now) words.now)) }
{
    let [replica, digits] = words else {
        return Err(TextError::BadText);
    };
    let bytes = bytes_of_hex(alloc, digits)?;
    Ok(ScriptLine::Udp {
        replica: List::from_slice(alloc, replica)?,
        bytes,
    })
}

#[tactic(auto, unfolding(crate::specs::Line::pull_line))]
fn pull_line(alloc: Global, words: &[&[u8]]) -> Result<ScriptLine, TextError>
    ensures { Reads result (pull_line (map (λ word. word.now) words.now)) }
{
    let [replica, supplier, apex] = words else {
        return Err(TextError::BadText);
    };
    let Some(apex) = name_of(apex) else {
        return Err(TextError::BadText);
    };
    Ok(ScriptLine::Pull {
        replica: List::from_slice(alloc, replica)?,
        supplier: List::from_slice(alloc, supplier)?,
        apex,
    })
}

#[tactic(auto, unfolding(crate::specs::Line::deliver_line))]
fn deliver_line(words: &[&[u8]]) -> Option<ScriptLine>
    ensures { result ≡ deliver_line (map (λ word. word.now) words.now) }
{
    let [number] = words else {
        return None;
    };
    let packet = number_of(u32::MAX, number)?;
    Some(ScriptLine::Deliver { packet })
}

#[tactic(auto, unfolding(crate::specs::Line::pass_line))]
fn pass_line(alloc: Global, words: &[&[u8]]) -> Result<ScriptLine, TextError>
    ensures { Reads result (pass_line (map (λ word. word.now) words.now)) }
{
    let [replica, apex] = words else {
        return Err(TextError::BadText);
    };
    let Some(apex) = name_of(apex) else {
        return Err(TextError::BadText);
    };
    Ok(ScriptLine::Pass {
        replica: List::from_slice(alloc, replica)?,
        apex,
    })
}

#[tactic(auto, unfolding(crate::specs::Line::event_line))]
fn event_line(alloc: Global, verb: &[u8], words: &[&[u8]]) -> Result<ScriptLine, TextError>
    ensures { Reads result (event_line verb.now (map (λ word. word.now) words.now)) }
{
    if is_word(verb, b"pull") {
        pull_line(alloc, words)
    } else if is_word(verb, b"deliver") {
        deliver_line(words).ok_or(TextError::BadText)
    } else if is_word(verb, b"pass") {
        pass_line(alloc, words)
    } else if is_word(verb, b"udp") {
        udp_line(alloc, words)
    } else {
        Err(TextError::BadText)
    }
}

// The line of a script that a text with these words is.
//
// # Errors
// `BadText` exactly where it is none, `OutOfMemory`.
#[tactic(auto, unfolding(crate::specs::Line::line_of))]
pub fn line_of(alloc: Global, text: &[u8], words: &[&[u8]]) -> Result<ScriptLine, TextError>
    ensures { Reads result (line_of text.now (map (λ word. word.now) words.now)) }
{
    let [verb, rest @ ..] = words else {
        return Err(TextError::BadText);
    };
    if is_word(verb, b"replica") {
        replica_line(alloc, rest)
    } else if is_word(verb, b"zone") {
        zone_line(alloc, rest)
    } else if is_word(verb, b"at") {
        at_line(rest).ok_or(TextError::BadText)
    } else if is_word(verb, b"admin") {
        admin_line(alloc, text)
    } else if is_word(verb, b"ask") {
        ask_line(alloc, rest)
    } else {
        event_line(alloc, verb, rest)
    }
}
