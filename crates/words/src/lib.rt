// UHF words (URN Code 40): `specs/` has what they mean, `proofs/` the theorems over it. The calls are those of `decoding` and `encoding`.
#![tactic(auto)]

// The 39 characters in the order of their values, 1 to 39.
pub const ALPHABET: [u8; 39] = *b"ABCDEFGHIJKLMNOPQRSTUVWXYZ-.:0123456789";
