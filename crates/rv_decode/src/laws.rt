//! How decoding and encoding go together. The functions do nothing: their contracts are the laws.

ghost use Rattle.rv_decode.specs.Laws.{DecodesEncoded, EncodedIsWord, EncodesDecoded, DecodedIsEncodable, DecodedHasRegisters};

/// The word of each encodable instruction has 32 bits, and decodes to that instruction.
pub fn decodes_encoded()
    ensures decodes { DecodesEncoded }
    ensures word { EncodedIsWord }
{}

/// Each word that isn't Illegal decodes to an encodable instruction, whose word it is.
pub fn encodes_decoded()
    ensures encodes { EncodesDecoded }
    ensures encodable { DecodedIsEncodable }
    ensures registers { DecodedHasRegisters }
{}
