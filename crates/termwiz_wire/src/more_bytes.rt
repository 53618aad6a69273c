//! What bytes decide, when more may follow them.
ghost use Rattle.std.specs.Prelude.{ℕ, ◌<◌, ◌++◌, List, Option, length, take};
ghost use Rattle.cbor.specs.Prefixes.{DecodesPrefixes, FailsBy, StaysDecoded, fault, left, seen};
ghost use Rattle.cbor.specs.declared.error.FaultKind.TheVariants.{Truncated};
ghost use Rattle.termwiz_wire.specs.Answers.{answer_at, answer_head_at, answer_in, ask_at, ask_in};
ghost use Rattle.termwiz_wire.specs.Answers.{changes_at, changes_in, one_change_at};
ghost use Rattle.termwiz_wire.specs.Decoding.{change_at};
ghost use Rattle.termwiz_wire.specs.MoreBytes.{Laws, halt, kind};
ghost use Rattle.termwiz_wire.specs.Sent.{IsSent, answer};
ghost use Rattle.termwiz_wire.specs.Within.{IsWithinLimits};
ghost use Rattle.termwiz_wire.specs.declared.decode.heads.Head.{Head};
ghost use Rattle.termwiz_wire.specs.declared.fault.Limits.{Limits};
ghost use Rattle.termwiz_wire.specs.declared.sent.SentAnswer.{SentAnswer};

/// A value, and a fault other than `Truncated`, stays as it is, whatever bytes follow within the
/// limit; and no bytes that reach the limit are `Truncated`.
pub fn decided()
    ensures change { (measure : List ℕ → ℕ) (rows : Option ℕ) →
        DecodesPrefixes fault left (λ room bytes. change_at measure room rows bytes) }
    ensures changes { (measure : List ℕ → ℕ) (head : Option Head) →
        DecodesPrefixes halt left (λ room bytes. changes_in measure room head bytes) }
    ensures answer { (measure : List ℕ → ℕ) (limits : Limits) →
        DecodesPrefixes halt left (λ room bytes. answer_in measure room limits bytes) }
    ensures ask { DecodesPrefixes fault left ask_in }
{}

/// What is decoded, and a fault but for `Truncated`, stays as it is at its place, whatever bytes
/// follow.
pub fn stays()
    ensures change { (measure : List ℕ → ℕ) (bytes more : List ℕ) →
        StaysDecoded kind left more (one_change_at measure bytes)
        (one_change_at measure (bytes ++ more)) }
    ensures changes { (measure : List ℕ → ℕ) (bytes more : List ℕ) →
        StaysDecoded kind left more (changes_at measure bytes)
        (changes_at measure (bytes ++ more)) }
    ensures answer { (measure : List ℕ → ℕ) (limits : Limits) (bytes more : List ℕ) →
        StaysDecoded kind left more (answer_at measure limits bytes)
        (answer_at measure limits (bytes ++ more)) }
    ensures head { (limits : Limits) (bytes more : List ℕ) →
        StaysDecoded kind seen more (answer_head_at limits bytes)
        (answer_head_at limits (bytes ++ more)) }
    ensures ask { (bytes more : List ℕ) →
        StaysDecoded kind left more (ask_at bytes) (ask_at (bytes ++ more)) }
{}

/// How answers of a stream are decoded within limits: what is decoded, and a fault but for
/// `Truncated`, stays as it is if more bytes follow. What is encoded within the limits is decoded
/// again, and each beginning of it that is not all of it is `Truncated`; what is past them is
/// `Limit`.
pub fn answers()
    ensures laws { (measure : List ℕ → ℕ) (limits : Limits) → 0 < limits.bytes →
        Laws measure limits }
    ensures truncated { (measure : List ℕ → ℕ) (limits : Limits) (a : SentAnswer) (k : ℕ) →
        IsSent measure a → IsWithinLimits measure limits a → k < length (answer measure a) →
        FailsBy kind Truncated (answer_at measure limits (take k (answer measure a))) }
{}
