// Keys (rule T2): a sender and a message id as one number. Each fragment of a message is pushed under its key.
#![tactic(auto)]

ghost use Rattle.std.specs.Prelude.{◌≡◌, [], ◌∷◌};
ghost use Rattle.keys.specs.Keys.{key_of, sender_of_lem};

// Rule T2: the key of a sender, whose six bytes come in their order, and a message id.
pub fn key_of(s0: u8, s1: u8, s2: u8, s3: u8, s4: u8, s5: u8, message_id: u16) -> u64
    ensures { result ≡ key_of (s0 ∷ s1 ∷ s2 ∷ s3 ∷ s4 ∷ s5 ∷ []) message_id }
{
    let high = (s0 as u64 * 256 + s1 as u64) * 256 + s2 as u64;
    let low = (s3 as u64 * 256 + s4 as u64) * 256 + s5 as u64;
    (high * 16777216 + low) * 65536 + message_id as u64
}

// Rule T2: the sender that a key names, its six bytes as one number.
pub fn sender_of(key: u64) -> u64
    ensures { result ≡ sender_of_lem key }
{
    key / 65536
}
