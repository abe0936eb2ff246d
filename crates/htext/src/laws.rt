//! Laws of the text of an input (HTML Standard, `#preprocessing-the-input-stream`): its characters and errors, their places, bad parts,
//! what more bytes change, and what is refused.

ghost use Rattle.std.specs.Prelude.{◌≡◌, ◌+◌, ◌<◌, ◌≤◌, ◌++◌, ◌∷◌, ◌↔◌, ℕ, List, length, map, true, false, None, Some};
ghost use Rattle.std.specs.Char.{IsScalar, encode_utf8, len_utf8};
ghost use Rattle.std.specs.Str.{IsUtf8, chars};
ghost use Rattle.htext.specs.Vocabulary.{placed, NotUtf8, TooLarge, Refuse, Replace, Policy, Read, Whole, Bad, PlacesRise, read_len, decoded, settled, reads};
ghost use Rattle.htext.specs.Vocabulary.{reads_at, bad_len, refusal_of, BeginsNoCharacter, IsBadPart, character_of, items, characters_among, errors_among, input_errors};

/// What is handed over of a text is its characters and its errors.
pub fn items_are_characters_and_errors()
    ensures characters { (text : List Read) → characters_among (items text) ≡ map character_of text }
    ensures errors { (text : List Read) → errors_among (items text) ≡ input_errors text }
{}

/// Bytes that are UTF-8 are read as their characters.
pub fn valid_bytes_are_characters()
    ensures { (bytes : List ℕ) → IsUtf8 bytes → reads bytes ≡ map Whole (placed 0 (chars bytes)) }
{}

/// Where no character begins, a bad part is read, as its definition says: at the end of the input, and before it as soon as the part is
/// the same whatever follows.
pub fn bad_parts_begin_characters()
    ensures at_end { (bytes : List ℕ) (n : ℕ) → (bad_len true bytes ≡ Some n) ↔ IsBadPart bytes n }
    ensures before_end { (bytes : List ℕ) (n : ℕ) → (bad_len false bytes ≡ Some n) ↔ ((more : List ℕ) → IsBadPart (bytes ++ more) n) }
    ensures reads { (at : ℕ) (front part rest : List ℕ) → IsUtf8 front → IsBadPart (part ++ rest) (length part)
        → reads_at at (front ++ (part ++ rest))
        ≡ map Whole (placed at (chars front)) ++ Bad (at + length front) ∷ reads_at (at + length front + length part) rest }
{}

/// More bytes change nothing of what was read.
#[tactic(auto, using(crate::proofs::Texts::goes_on))]
pub fn text_goes_on()
    ensures settled { (how : Policy) (bytes more : List ℕ)
        → (rest : List Read) × (settled how (bytes ++ more) ≡ settled how bytes ++ rest) }
    ensures decoded { (how : Policy) (bytes more : List ℕ)
        → (rest : List Read) × (decoded how (bytes ++ more) ≡ settled how bytes ++ rest) }
{}

/// The places of what was read rise, and lie in the front that is read.
pub fn places_rise()
    ensures { (how : Policy) (bytes : List ℕ)
        → PlacesRise 0 (map character_of (decoded how bytes)) (read_len how bytes) }
{}

/// Where bad bytes are refused, bytes are refused for what follows the longest front that is UTF-8 and fits, at its end. Where they are
/// replaced, bytes are refused only if they are too many.
#[tactic(auto, using(crate::proofs::Refusals::accepted, crate::proofs::Refusals::too_large, crate::proofs::Refusals::not_utf8))]
pub fn refusals_are_of_what_follows()
    ensures accepted { (how : Policy) (bytes : List ℕ) → how.bad ≡ Refuse
        → (refusal_of how bytes ≡ None) ↔ (IsUtf8 bytes × (length bytes ≤ how.limit)) }
    ensures too_large { (how : Policy) (front : List ℕ) (ch : ℕ) (rest : List ℕ) → how.bad ≡ Refuse → IsUtf8 front → IsScalar ch
        → length front ≤ how.limit → how.limit < length front + len_utf8 ch
        → refusal_of how (front ++ (encode_utf8 ch ++ rest)) ≡ Some (TooLarge (length front)) }
    ensures not_utf8 { (how : Policy) (front rest : List ℕ) → how.bad ≡ Refuse → IsUtf8 front → length front ≤ how.limit
        → 0 < length rest → BeginsNoCharacter rest
        → refusal_of how (front ++ rest) ≡ Some (NotUtf8 (length front)) }
    ensures replaced { (how : Policy) (bytes : List ℕ) → how.bad ≡ Replace
        → (refusal_of how bytes ≡ None) ↔ (length bytes ≤ how.limit) }
{}
