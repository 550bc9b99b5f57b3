//! Laws of rewritten files that are read back.
#![tactic(auto)]

ghost use Rattle.recovery_laws.specs.Texts.{CodeStays, TextComesBack};
ghost use Rattle.recovery_laws.specs.ReadBack.{RewrittenIsRecovered};

/// The text of a rewritten file comes back from its patched words as the original one, with 0 for
/// words of the gates' opcode, and each rewriting of it has the same code.
pub fn text_comes_back()
    ensures words { TextComesBack }
    ensures code { CodeStays }
{}

/// What `rewrite` puts is recovered undamaged: with the image, whose segments stand at other offsets,
/// the regions and the version that it was made with, and the words of the text, but 0 for words of
/// the gates' opcode. Rewriting what it carries gives the same file.
pub fn rewritten_is_recovered()
    ensures { RewrittenIsRecovered }
{}
