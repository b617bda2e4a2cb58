ghost use Rattle.std.specs.Prelude.{◌≡◌};
ghost use Rattle.std.specs.List.{list_all};
ghost use Rattle.dn_word.specs.Replicas.{id_of, is_name_byte, is_replica_name};

use dn_stamp::ReplicaId;

// Whether a byte may stand in the name of a replica.
fn is_name_byte(byte: u8) -> bool
    ensures { result ≡ is_name_byte byte }
{
    byte.is_ascii_alphanumeric() || byte == b'-' || byte == b'_'
}

fn all_name_bytes(word: &[u8]) -> bool
    ensures { result ≡ list_all is_name_byte word.now }
{
    word.iter().all(|byte| is_name_byte(*byte))
}

/// Whether a word is the name of a replica: 1 to 32 letters, digits, `-` or `_`.
#[tactic(auto, unfolding(crate::specs::Replicas::is_replica_name))]
pub fn is_replica_name(word: &[u8]) -> bool
    ensures { result ≡ is_replica_name word.now }
{
    !word.is_empty() && word.len() <= 32 && all_name_bytes(word)
}

/// The identity of a replica that a word is: 32 hex digits of either case.
#[tactic(auto, unfolding(crate::specs::Replicas::id_of))]
pub fn id_of(word: &[u8]) -> Option<ReplicaId>
    ensures { result ≡ id_of word.now }
{
    let mut bytes = [0u8; 16];
    match hex::decode_to_slice(word, &mut bytes) {
        Ok(()) => Some(ReplicaId(bytes)),
        Err(_) => None,
    }
}
