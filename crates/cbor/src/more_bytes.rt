//! What the first bytes decide, whatever bytes follow them.
ghost use Rattle.std.specs.Prelude.{ℕ, ℤ, Bool, List, ◌<◌, ◌^◌};
ghost use Rattle.cbor.specs.Encoding.{IsSigned, IsText, array, boolean, signed, text, unsigned};
ghost use Rattle.cbor.specs.Decoding.{array_at, array_of_at, below_at, boolean_at, kind_at};
ghost use Rattle.cbor.specs.Decoding.{list_at, null_at, signed_at, text_at, unsigned_at};
ghost use Rattle.cbor.specs.Prefixes.{BeginningsOf, DecodesPrefixes, fault, left, rest_with, seen};

/// Each proper prefix of an encoded item is `Truncated`, where the item is within the limit.
pub fn beginnings()
    ensures unsigned { (n : ℕ) → n < 2 ^ 64 → BeginningsOf fault unsigned_at (unsigned n) }
    ensures signed { (n : ℤ) → IsSigned n → BeginningsOf fault signed_at (signed n) }
    ensures boolean { (b : Bool) → BeginningsOf fault boolean_at (boolean b) }
    ensures text { (t : List ℕ) → IsText t → BeginningsOf fault text_at (text t) }
    ensures array { (n : ℕ) → n < 2 ^ 64 → BeginningsOf fault array_at (array n) }
{}

/// A value or a fault other than `Truncated` stays the same, whatever bytes follow within the
/// limit, and no bytes that reach the limit are `Truncated`.
pub fn decided()
    ensures unsigned { DecodesPrefixes fault left unsigned_at }
    ensures below { (limit : ℕ) →
        DecodesPrefixes fault left (λ room bytes. below_at room limit bytes) }
    ensures signed { DecodesPrefixes fault left signed_at }
    ensures boolean { DecodesPrefixes fault left boolean_at }
    ensures null { DecodesPrefixes fault rest_with null_at }
    ensures text { DecodesPrefixes fault left text_at }
    ensures array { DecodesPrefixes fault left array_at }
    ensures list { DecodesPrefixes fault left list_at }
    ensures array_of { (count : ℕ) →
        DecodesPrefixes fault rest_with (λ room bytes. array_of_at room count bytes) }
    ensures kind { DecodesPrefixes fault seen kind_at }
{}
