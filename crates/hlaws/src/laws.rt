//! Laws of whole inputs: one answer and one parse, what is refused of a front, and that plain lists of trees and documents come back.

ghost use Rattle.hlaws.specs.ComesBack.{PlainTokens, PlainBuilds, PlainComesBack};
ghost use Rattle.hlaws.specs.DocumentComesBack.{PlainDocumentTokens, PlainDocumentBuilds, PlainDocumentComesBack, ComesBackWithoutIdentifiers};
ghost use Rattle.hlaws.specs.OneAnswer.{OneAnswer, OneParse};
ghost use Rattle.hlaws.specs.Unrefused.{FrontsOfAnswered, FrontsOfParsed, RulesRefuse, ProfileRefuses};

/// A plain list of trees, as it is written, is read as its own tokens, in each context in which it is plain.
#[tactic(auto, using(crate::proofs::TokensWhole::tokens_law))]
pub fn plain_tokens()
    ensures { PlainTokens }
{}

/// The tokens of a plain list of trees build it, from each quiet state of tree construction.
#[tactic(auto, using(crate::proofs::Back::plain_builds))]
pub fn plain_builds()
    ensures { PlainBuilds }
{}

/// A plain list of trees comes back when what is written of it is parsed, in each context in which it is plain. A parser takes each such context.
pub fn plain_comes_back()
    ensures { PlainComesBack }
{}

/// A plain document, as it is written, is read as its own tokens.
#[tactic(auto, using(crate::proofs::TokensWhole::document_tokens))]
pub fn plain_document_tokens()
    ensures { PlainDocumentTokens }
{}

/// The tokens of a plain document build it, from the state in which a document begins.
#[tactic(auto, using(crate::proofs::Documents::law))]
pub fn plain_document_builds()
    ensures { PlainDocumentBuilds }
{}

/// A plain document comes back when what is written of it is parsed. So does one whose doctype has identifiers, but without them.
#[tactic(auto, using(crate::proofs::Back::document_comes_back, crate::proofs::Back::document_comes_back_without))]
pub fn plain_document_comes_back()
    ensures whole { PlainDocumentComesBack }
    ensures identifiers { ComesBackWithoutIdentifiers }
{}

/// The bytes of a document have exactly one answer: its tokens and its errors in their order, or what it is refused for, with the
/// place. So however the bytes are cut into pieces, what `hparse` gives of them is the same, unless memory runs out.
#[tactic(auto, using(crate::proofs::OneAnswer::one_answer))]
pub fn one_answer()
    ensures { OneAnswer }
{}

/// The bytes of a document or of a fragment are parsed in exactly one way: a tree and the errors in their order, or what they are
/// refused for, with the place. So however the bytes are cut into pieces, what a parser gives of them is the same, unless memory runs out.
#[tactic(auto, using(crate::proofs::OneAnswer::one_parse))]
pub fn one_parse()
    ensures { OneParse }
{}

/// No run refuses a front of an input that is accepted, whatever was to follow.
#[tactic(auto, using(crate::proofs::OneAnswer::fronts_of_answered, crate::proofs::OneAnswer::fronts_of_parsed))]
pub fn fronts_of_accepted()
    ensures tokens { FrontsOfAnswered }
    ensures tree { FrontsOfParsed }
{}

/// What is refused of the spans at the front of an input that are there whatever follows is refused whatever follows.
pub fn refused_fronts()
    ensures rules { RulesRefuse }
    ensures profile { ProfileRefuses }
{}
