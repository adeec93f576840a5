//! Theorems about words and places that concern more than one call; each is the contract of a
//! function that does nothing.

ghost use Rattle.qrcode_layout.specs.Words.{VersionWordsAreApart, FormatWordsAreApart};
ghost use Rattle.qrcode_layout.specs.Stream.{FreePlacesAreFilled};
ghost use Rattle.qrcode_layout.specs.Laws.{FiguresFit, FiguresAgree, FormatPlacesAreNoPatterns, FormatCopiesAreIndexed, FormatPlacesAreInCopies, WalkIsInside, WalkIsApart, WalkIsWhole, LeftOutIsFunctional, FreePlacesAreApart, FreePlacesAreWhole};

/// Theorem: any two version words are far apart, and so are format words that name different
/// things.
pub fn words()
    ensures versions { VersionWordsAreApart }
    ensures formats { FormatWordsAreApart }
{}

/// Theorem: each figure lies in the symbol; where two overlap, they agree; and no figure of a
/// pattern covers a place of the format word.
pub fn figures()
    ensures fit { FiguresFit }
    ensures agree { FiguresAgree }
    ensures apart { FormatPlacesAreNoPatterns }
{}

/// Theorem: each copy of the format word has its fifteen bits in order, and no other place has one.
pub fn format_copies()
    ensures copies { FormatCopiesAreIndexed }
    ensures places { FormatPlacesAreInCopies }
{}

/// Theorem: the walk visits every place once, except those of one column, which are all functional.
/// So it visits each free place once, and the codewords and remainder bits of a version fill the
/// free places.
pub fn free_places()
    ensures inside { WalkIsInside }
    ensures walk_apart { WalkIsApart }
    ensures walk_whole { WalkIsWhole }
    ensures left_out { LeftOutIsFunctional }
    ensures apart { FreePlacesAreApart }
    ensures whole { FreePlacesAreWhole }
    ensures filled { FreePlacesAreFilled }
{}
