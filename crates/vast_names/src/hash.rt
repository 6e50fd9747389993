//! The number by which a name finds its slot: FNV-1a of 64 bits, with its upper half mixed into the lower.

ghost use Rattle.std.specs.Prelude.{◌≡◌, ◌<◌};
ghost use Rattle.vast_names.specs.Internal.Hash.{hash_step, hash, slot_among};

pub(crate) const BASIS: u64 = 0xcbf2_9ce4_8422_2325;

pub(crate) const PRIME: u64 = 0x0000_0100_0000_01b3;

#[tactic(auto, unfolding(crate::specs::Internal::Hash::hash_step))]
fn hash_step(hash: u64, byte: u8) -> u64
    ensures { result ≡ hash_step hash byte }
{
    (hash ^ u64::from(byte)).wrapping_mul(PRIME)
}

#[tactic(auto, unfolding(crate::specs::Internal::Hash::hash))]
fn hash(name: &[u8]) -> u64
    ensures { result ≡ hash name.now }
{
    let all = name.iter().fold(BASIS, |hash, byte| hash_step(hash, *byte));
    all ^ (all >> 32)
}

/// The name's slot among that many.
#[tactic(auto, unfolding(crate::specs::Internal::Hash::slot_among))]
pub(crate) fn slot_among(slots: usize, name: &[u8]) -> usize
    requires { 0 < slots }
    ensures is { result ≡ slot_among slots name.now }
    ensures below { result < slots }
{
    (hash(name) & (slots as u64 - 1)) as usize
}
