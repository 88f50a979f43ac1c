//! What the codes of a program take in a file, and how many operands they hold.
#![tactic(auto)]

ghost use Rattle.jn_size_laws.specs.LawsOfOperands.{OperandsOf};
ghost use Rattle.jn_size_laws.specs.LawsOfFiles.{MethodsApart, FilesFit, FilesWithin};
ghost use Rattle.jn_size_laws.specs.LawsOfSizes.{PlacesFit, TokensOf, BodiesSized, CodesAreShort};

/// The places of a form have at most as many instructions as its size says.
pub fn places_fit()
    ensures { PlacesFit }
{}

/// A form has at most four instructions for each of its tokens.
pub fn tokens_suffice()
    ensures { TokensOf }
{}

/// The code that stands at the places of a body is no longer than the body allows.
pub fn bodies_sized()
    ensures { BodiesSized }
{}

/// The code of a method takes at most 64 bytes in a file for each token of the method, in every source.
pub fn codes_are_short()
    ensures { CodesAreShort }
{}

/// The code of a body holds fewer operands than an image may say, in every source that nests within the limit.
pub fn operands_fit()
    ensures { OperandsOf }
{}

/// The methods of a source have words of their own, in the order of its bodies.
pub fn methods_apart()
    ensures { MethodsApart }
{}

/// A file of an image takes, beside its texts, at most 65 bytes for each token of its source, 8 for each entry and 512
/// for each class.
pub fn files_fit()
    ensures { FilesFit }
{}

/// So for each source within its limits it is within its limit.
pub fn files_within()
    ensures { FilesWithin }
{}
