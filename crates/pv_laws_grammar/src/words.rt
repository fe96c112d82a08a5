//! Laws of the words and quoted texts in a line.
ghost use Rattle.std.specs.Prelude.{ℕ, ℤ, ◌^◌, ◌<◌, ◌≤◌, Some, Option, length, ◌++◌, ◌≡◌, ◌↔◌};
ghost use Rattle.std.specs.List.{AllByRecursion};
ghost use Rattle.std.specs.Fmt.{decimal};
ghost use Rattle.pv_model.specs.declared.call.Whence.{Whence};
ghost use Rattle.pv_model.specs.declared.instruction.Operand.{Operand};
ghost use Rattle.pv_model.specs.declared.instruction.Origin.{Origin};
ghost use Rattle.pv_model.specs.declared.limits.TheConstants.{TEXT};
ghost use Rattle.pv_model.specs.declared.open_flags.OpenFlags.{OpenFlags};
ghost use Rattle.pv_model.specs.Machine.{Bytes, text_at, decimal_of, EncodesText, quote};
ghost use Rattle.pv_model.specs.Grammar.Arguments.{parsed_number, register_of, operand_of, parsed_flags, whence_of, origin_of, text_or_null_at};
ghost use Rattle.pv_model.specs.Grammar.Forms.{IsAfterWord};
ghost use Rattle.pv_model.specs.Grammar.Encoding.{Decimal, EncodesNumber, EncodesRegister, EncodesOperand, EncodesFlags, EncodesWhence, EncodesOrigin, EncodesTextOrNull};

/// A word parses as a decimal number if and only if it encodes it. Below 2^64 the only such word is the one that is
/// written for the number.
pub fn decimals_are_read_as_they_are_encoded()
    ensures read { (word : Bytes) (n : ℕ) → decimal_of word ≡ Some n ↔ Decimal n word }
    ensures written { (word : Bytes) (n : ℕ) → n < 2 ^ 64 → Decimal n word ↔ word ≡ decimal n }
{}

/// A word parses as a number, a register, an operand, flags, a whence or an origin if and only if it encodes that
/// value.
pub fn words_are_read_as_they_are_encoded()
    ensures register { (word : Bytes) (r : ℕ) → register_of word ≡ Some r ↔ EncodesRegister r word }
    ensures whence { (word : Bytes) (whence : Whence) → whence_of word ≡ Some whence ↔ EncodesWhence whence word }
    ensures origin { (word : Bytes) (origin : Origin) → origin_of word ≡ Some origin ↔ EncodesOrigin origin word }
    ensures number { (word : Bytes) (n : ℤ) → parsed_number word ≡ Some n ↔ EncodesNumber n word }
    ensures operand { (word : Bytes) (operand : Operand) → operand_of word ≡ Some operand ↔ EncodesOperand operand word }
    ensures flags { (word : Bytes) (flags : OpenFlags) → parsed_flags word ≡ Some flags ↔ EncodesFlags flags word }
{}

/// A quoted text or `null` that parses at the start of bytes is encoded there. Conversely, one that is encoded there
/// parses if the bytes end after it or a space follows.
pub fn texts_are_read_as_they_are_encoded()
    ensures read_or_null { (bytes rest : Bytes) (value : Option Bytes) → text_or_null_at bytes ≡ Some (value, rest) → (word : Bytes) × EncodesTextOrNull value word × (bytes ≡ word ++ rest) }
    ensures encoded_or_null { (value : Option Bytes) (word rest : Bytes) → EncodesTextOrNull value word → IsAfterWord rest → text_or_null_at (word ++ rest) ≡ Some (value, rest) }
    ensures read { (bytes value rest : Bytes) → text_at bytes ≡ Some (value, rest) → (word : Bytes) × EncodesText value word × (bytes ≡ word ++ rest) }
    ensures encoded { (value word rest : Bytes) → EncodesText value word → IsAfterWord rest → text_at (word ++ rest) ≡ Some (value, rest) }
{}

/// The quoted form in a trace, which is the shortest, encodes the text.
pub fn shortest_form_encodes_the_text()
    ensures { (value : Bytes) → AllByRecursion (λ b. (0 < b) × (b < 256)) value → length value ≤ TEXT → EncodesText value (quote value) }
{}
