//! Laws of spellings and of streams.

ghost use Rattle.std.specs.Prelude.{◌≡◌, ℕ, List, ◌++◌, Ok};
ghost use Rattle.gb_base.specs.Bytes.{AreBytes};
ghost use Rattle.gb_formats.specs.Message.{Message, message_size, spelling};
ghost use Rattle.gb_formats.specs.Wire.{Spells, IsStream, decode_answer};
ghost use Rattle.gb_wire.specs.Streams.{IsSpelled};

/// What is encoded is decoded again, whatever follows it.
pub fn encoded_is_decoded()
    ensures { (m : Message) (more : List ℕ) → IsSpelled m
        → decode_answer (spelling m ++ more) ≡ Ok (m, message_size m.payload) }
{}

/// No spelling of a message begins another: bytes begin with at most one, and that of one message.
pub fn one_spelling()
    ensures { (a b more rest : List ℕ) (m n : Message)
        → Spells a m → Spells b n → a ++ more ≡ b ++ rest → (a ≡ b) × (m ≡ n) }
{}

/// Bytes have one division into messages and a rest.
pub fn one_division()
    ensures found { (bytes : List ℕ) → AreBytes bytes
        → (messages : List Message) × ((rest : List ℕ) × IsStream bytes messages rest) }
    ensures only { (bytes rest end : List ℕ) (messages others : List Message)
        → IsStream bytes messages rest → IsStream bytes others end
        → (messages ≡ others) × (rest ≡ end) }
{}
